//! Receipts for events.
ghost use Rattle.std.specs.Prelude.{◌≡◌};

use crate::asked::Asked;
use std::marker::{Model, PhantomData};
use zs_books::Books;
use zs_events::{Event, Turn};
use zs_shared::Shared;

/// That a session took an event: only the session that took it makes one. Contracts see what the getters tell.
#[derive(Drop)]
pub struct Receipt<B: Books> {
    pub(super) place: u64,
    pub(super) count: u64,
    pub(super) event: Shared<Event>,
    pub(super) came: bool,
    pub(super) turn: Shared<Turn>,
    pub(super) asked: Option<Asked>,
    pub(super) of: PhantomData<B>,
}

impl<B: Books> Model for Receipt<B> {
    ghost use Rattle.zs_held.specs.Receipts.{ReceiptSeen};

    ghost Value = { ReceiptSeen };

    ghost view = { λ r. record { place = r.place; count = r.count; event = r.event; came = r.came; turn = r.turn; asked = r.asked } };
}

impl<B: Books> Receipt<B> {
    /// The place of the event in the session's journal: that of the first is 1.
    pub fn place(&self) -> u64
        ensures { result ≡ self.now.place }
    {
        self.place
    }

    /// How many events the session has taken from this caller, with this one.
    pub fn count(&self) -> u64
        ensures { result ≡ self.now.count }
    {
        self.count
    }

    /// The event.
    pub fn event(&self) -> &Event
        ensures { result.now ≡ self.now.event }
    {
        self.event.get()
    }

    /// Whether the event came with a handler.
    pub fn came(&self) -> bool
        ensures { result ≡ self.now.came }
    {
        self.came
    }

    /// The turn that the session made of it.
    pub fn turn(&self) -> &Turn
        ensures { result.now ≡ self.now.turn }
    {
        self.turn.get()
    }

    /// The gate that the session was asked for as it took the event, if it was asked for one.
    pub fn asked(&self) -> Option<Asked>
        ensures { result ≡ self.now.asked }
    {
        self.asked
    }
}
