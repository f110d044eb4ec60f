//! A session behind its lock.
ghost use Rattle.std.specs.Prelude.{◌≡◌, IsTrue, IfOk};
ghost use Rattle.zs_core.specs.Settings.{is_valid};
ghost use Rattle.zs_books.specs.Callers.{new_caller};

mod calls;
mod finishing;
mod keys;
mod looking;
mod stepping;
mod undeclaring;

use std::alloc::{AllocError, Global};
use std::marker::Model;
use std::sync::Arc;
use std::sync::ledger::Blank;
use zs_books::Books;
use zs_core::Settings;
use zs_gate::{Fact, KeyedLock};
use zs_held::{Held, Receipt};
use zs_posts::Room;

type Caller<B> = zs_books::Caller<B, Receipt<B>>;

// Under the lock of a session lies the session of one room, so passes that were lent in one hold of it come home in another.
pub(crate) struct OfRoom;

impl<H, B: Books> Fact<Held<H, B>, Room> for OfRoom {
    ghost use Rattle.std.specs.Prelude.{◌≡◌};

    ghost holds = { λ room held. held.session.exchange.posts.room ≡ room };
}

pub(crate) struct Inner<H, B: Books> {
    alloc: Global,
    zid: u128,
    entity: u32,
    tag: u64,
    lock: KeyedLock<Held<H, B>, Room, OfRoom>,
}

impl<H: Drop, B: Books> Drop for Inner<H, B> {
    /// Lets go of the lock, with the session under it.
    fn drop(self) {
        let Inner {
            alloc: _,
            zid: _,
            entity: _,
            tag: _,
            lock,
        } = self;
        drop(lock);
    }
}

/// A session that callers share. Its calls stand in `SessionCalls` (`zs_calls`), `SessionEntities` and `SessionLiveliness`
/// (`zs_entities`). It keeps all its events with their turns in a journal, for as long as it lives. Contracts see which session
/// it is, and what its settings say of it.
#[derive(Drop)]
pub struct Session<H, B: Books> {
    shared: Arc<Inner<H, B>>,
}

impl<H, B: Books> Model for Session<H, B> {
    ghost use Rattle.std.specs.Prelude.{◌≡◌};
    ghost use Rattle.std.specs.Arc.{arc_value};
    ghost use Rattle.zs_cell.specs.Places.{SessionPlace};

    ghost Value = { SessionPlace };

    ghost view = { λ s. record { lock = (arc_value s.shared).lock; zid = (arc_value s.shared).zid; entity = (arc_value s.shared).entity; tag = (arc_value s.shared).tag } };

    ghost invariant = { λ s. ((arc_value s.shared).zid ≡ B.Entries.settings.zid) × ((arc_value s.shared).entity ≡ B.Entries.settings.entity_start) × ((arc_value s.shared).tag ≡ B.Entries.settings.tag) };
}

// A lock round a session, with the session's room as its key.
#[tactic(none)]
fn lock_of<H: Drop, B: Books>(
    alloc: Global,
    held: Held<H, B>,
) -> Result<KeyedLock<Held<H, B>, Room, OfRoom>, AllocError> {
    match held.room() {
        Ok(room) => {
            let lock = KeyedLock::new(alloc, &room, held);
            drop(room);
            lock
        }
        Err(why) => {
            drop(held);
            Err(why)
        }
    }
}

// A session in a place that its values share.
#[tactic(none)]
fn placed<H: Drop, B: Books>(alloc: Global, inner: Inner<H, B>) -> Result<Session<H, B>, AllocError>
    requires zid { inner.zid ≡ B.Entries.settings.zid }
    requires entity { inner.entity ≡ B.Entries.settings.entity_start }
    requires tag { inner.tag ≡ B.Entries.settings.tag }
    ensures zid { IfOk result (λ made. made.zid ≡ inner.zid) }
    ensures entity { IfOk result (λ made. made.entity ≡ inner.entity) }
    ensures tag { IfOk result (λ made. made.tag ≡ inner.tag) }
{
    match Arc::new(alloc, inner) {
        Ok(shared) => Ok(Session { shared }),
        Err(why) => Err(why.into()),
    }
}

impl<H: Drop, B: Books> Session<H, B> {
    /// Opens a session: the session, and the caller that has all parts of its ledgers. The settings are those that the first ledger
    /// names; the blanks are the ledgers before their first entry: of the events, of the messages sent, and of those drained.
    ///
    /// # Errors
    ///
    /// Want of memory alone.
    #[tactic(none)]
    pub fn open(
        alloc: Global,
        settings: &Settings,
        entries: Blank,
        sent: Blank,
        drained: Blank,
    ) -> Result<(Session<H, B>, Caller<B>), AllocError>
        requires valid { IsTrue (is_valid settings.now) }
        requires settings { settings.now ≡ B.Entries.settings }
        requires entries { (entries.name ≡ B.Entries.name) × (entries.parts ≡ B.Entries.parts) × (B.Entries.parts ≡ 4294967296) }
        requires sent { (sent.name ≡ B.Sent.name) × (sent.parts ≡ B.Sent.parts) × (B.Sent.parts ≡ 4294967296) }
        requires drained { (drained.name ≡ B.Drained.name) × (drained.parts ≡ B.Drained.parts) × (B.Drained.parts ≡ 4294967296) }
        ensures zid { IfOk result (λ made. made.0.zid ≡ settings.now.zid) }
        ensures entity { IfOk result (λ made. made.0.entity ≡ settings.now.entity_start) }
        ensures tag { IfOk result (λ made. made.0.tag ≡ settings.now.tag) }
        ensures caller { IfOk result (λ made. made.1 ≡ new_caller) }
    {
        match Held::new(alloc, settings, entries, sent, drained) {
            Ok(opened) => Session::shared_by(alloc, settings, opened),
            Err(why) => Err(why),
        }
    }

    // A session over one that was opened with these settings, and its caller.
    #[tactic(none)]
    fn shared_by(
        alloc: Global,
        settings: &Settings,
        opened: (Held<H, B>, Caller<B>),
    ) -> Result<(Session<H, B>, Caller<B>), AllocError>
        requires { settings.now ≡ B.Entries.settings }
        ensures zid { IfOk result (λ made. made.0.zid ≡ settings.now.zid) }
        ensures entity { IfOk result (λ made. made.0.entity ≡ settings.now.entity_start) }
        ensures tag { IfOk result (λ made. made.0.tag ≡ settings.now.tag) }
        ensures caller { IfOk result (λ made. made.1 ≡ opened.1) }
    {
        let (held, caller) = opened;
        match Session::over(
            alloc,
            settings.zid,
            settings.entity_start,
            settings.tag,
            held,
        ) {
            Ok(session) => Ok((session, caller)),
            Err(why) => {
                drop(caller);
                Err(why)
            }
        }
    }

    // A session over one that is held, with what its settings say of it.
    #[tactic(none)]
    fn over(
        alloc: Global,
        zid: u128,
        entity: u32,
        tag: u64,
        held: Held<H, B>,
    ) -> Result<Session<H, B>, AllocError>
        requires zid { zid ≡ B.Entries.settings.zid }
        requires entity { entity ≡ B.Entries.settings.entity_start }
        requires tag { tag ≡ B.Entries.settings.tag }
        ensures zid { IfOk result (λ made. made.zid ≡ zid) }
        ensures entity { IfOk result (λ made. made.entity ≡ entity) }
        ensures tag { IfOk result (λ made. made.tag ≡ tag) }
    {
        match lock_of(alloc, held) {
            Ok(lock) => placed(
                alloc,
                Inner {
                    alloc,
                    zid,
                    entity,
                    tag,
                    lock,
                },
            ),
            Err(why) => Err(why),
        }
    }

    /// Another value of the same session.
    ///
    /// # Errors
    ///
    /// More values than can be counted.
    pub fn try_clone(&self) -> Result<Session<H, B>, AllocError>
        ensures { IfOk result (λ other. other ≡ self.now) }
    {
        let shared = Arc::try_clone(&self.shared)?;
        Ok(Session { shared })
    }
}
