//! What the journal of a session has of each event.

use zs_events::{Event, Turn};
use zs_shared::Shared;

/// An event that a session took, with the turn that it made of it.
#[derive(Drop)]
pub struct Entry {
    pub event: Shared<Event>,
    pub turn: Shared<Turn>,
}
