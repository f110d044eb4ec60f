//! What callers ask of a session without stepping it.
ghost use Rattle.std.specs.Prelude.{◌≡◌, ◌↔◌, ◌<◌, [], None, IsSome, length, IfOk, IfSome};
ghost use Rattle.std.specs.Option.{option_to_list};
ghost use Rattle.zs_session_cell.specs.Journals.{Follows};
ghost use Rattle.zs_books.specs.Callers.{all_parts, most};
ghost use Rattle.zs_held.specs.Held.{drained_by};
ghost use Rattle.zs_held.specs.Messages.{messages_of};

use crate::clock::Clock;
use crate::session::Session;
use std::alloc::{AllocError, Global};
use std::sync::Wait;
use zs_books::Books;
use zs_held::{Entries, Receipt};
use zs_shared::Shared;
use zs_wire::{EntityGlobalId, Message, Timestamp};

type Caller<B> = zs_books::Caller<B, Receipt<B>>;

impl<H: Drop, B: Books> Session<H, B> {
    /// The allocator by which the session makes what its callers hand it.
    pub fn alloc(&self) -> Global {
        self.shared.alloc
    }

    /// The session's own identifier in the network.
    pub fn zid(&self) -> u128
        ensures session { result ≡ self.now.zid }
        ensures settings { result ≡ B.Entries.settings.zid }
    {
        self.shared.zid
    }

    /// The session among the entities of the network.
    pub fn id(&self) -> EntityGlobalId
        ensures session { result ≡ record { zid = self.now.zid; eid = self.now.entity } }
        ensures settings { result ≡ record { zid = B.Entries.settings.zid; eid = B.Entries.settings.entity_start } }
    {
        EntityGlobalId {
            zid: self.shared.zid,
            eid: self.shared.entity,
        }
    }

    /// What the keys that this session declares are marked with.
    pub fn tag(&self) -> u64
        ensures session { result ≡ self.now.tag }
        ensures settings { result ≡ B.Entries.settings.tag }
    {
        self.shared.tag
    }

    /// The clock's moment, as this session's.
    pub fn new_timestamp<C: Clock>(&self, clock: &mut C) -> Timestamp
        ensures moment { C.reads clock.old result.time clock.new }
        ensures id { result.id ≡ self.now.zid }
    {
        Timestamp {
            time: clock.now(),
            id: self.shared.zid,
        }
    }

    /// Whether the session was closed.
    pub fn is_closed<R: Wait>(&self, rt: &R) -> bool {
        let (held, taken) = self.shared.lock.take(rt);
        let closed = held.is_closed();
        taken.put(held);
        closed
    }

    // Whether that cancellation token was taken.
    pub(crate) fn is_taken<R: Wait>(&self, rt: &R, token: u32) -> bool {
        let (held, taken) = self.shared.lock.take(rt);
        let is_taken = held.is_taken(token);
        taken.put(held);
        is_taken
    }

    /// How many events the session took, if the caller counts as many, and as many sent messages and drained ones as the
    /// session does: always, where it has all parts of the ledgers.
    pub fn entries<R: Wait>(&self, rt: &R, all: &mut Caller<B>) -> Option<u64>
        ensures caller { all.new ≡ all.old }
        ensures len { IfSome result (λ n. n ≡ all.old.count) }
        ensures whole { all.old.parts ≡ all_parts → result ≡ Some all.old.count }
    {
        let (mut held, taken) = self.shared.lock.take(rt);
        let entries = held.entries(all);
        taken.put(held);
        entries
    }

    /// A copy of the session's journal: all events that it took, with their turns, the oldest first. `None` as `entries` has it.
    ///
    /// # Errors
    ///
    /// Want of memory alone.
    pub fn journal<R: Wait>(
        &self,
        rt: &R,
        all: &mut Caller<B>,
    ) -> Result<Option<Entries>, AllocError>
        ensures caller { all.new ≡ all.old }
        ensures turns { IfOk result (λ found. IfSome found (λ entries. Follows B.Entries.settings [] entries)) }
        ensures len { IfOk result (λ found. IfSome found (λ entries. length entries ≡ all.old.count)) }
        ensures whole { all.old.parts ≡ all_parts → IfOk result (λ found. IsSome found) }
        ensures sent { all.old.parts ≡ all_parts → IfOk result (λ found. IfSome found (λ entries. length (messages_of entries) ≡ all.old.sent)) }
        ensures few { IfOk result (λ found. IfSome found (λ entries. length (messages_of entries) < most → length (messages_of entries) ≡ all.old.sent)) }
    {
        let (mut held, taken) = self.shared.lock.take(rt);
        let found = held.copy(self.shared.alloc, all);
        taken.put(held);
        found
    }

    /// Takes the message that was sent first of those that weren't drained yet. It steps no event and takes no memory. A caller
    /// that has all parts of the ledgers finds none exactly where it counts as many drained messages as sent ones.
    pub fn drain<R: Wait>(&self, rt: &R, caller: &mut Caller<B>) -> Option<Shared<Message>>
        ensures caller { caller.new ≡ drained_by (length (option_to_list result)) caller.old }
        ensures all { caller.old.parts ≡ all_parts → (result ≡ None) ↔ (caller.old.sent ≡ caller.old.drained) }
    {
        let (mut held, taken) = self.shared.lock.take(rt);
        let message = held.drain(caller);
        taken.put(held);
        message
    }
}
