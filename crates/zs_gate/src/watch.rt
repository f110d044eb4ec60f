//! The keeper of a group, and how far it has come, from open to drained.
use crate::keeper::{Drained, Draining, Keeper};

#[derive(Drop)]
pub enum Watch {
    // No one waits.
    Open(Keeper),
    // Someone waits, and the gate is marked.
    Draining(Draining),
    // The gate is marked, and no one is to wait any longer.
    Closed(Draining),
    // No one is inside any more.
    Drained(Drained),
}
