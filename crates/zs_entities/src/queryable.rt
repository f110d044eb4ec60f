//! Queryables.
ghost use Rattle.std.specs.Prelude.{◌≡◌, IfOk, IfErr, OnOk, None, false, is_some};
ghost use Rattle.zs_cell.specs.Steps.{Accepts, AcceptsFor, Stops};
ghost use Rattle.zs_events.specs.declared.entity_kind.BackgroundKind.TheVariants.{Queryable as left_queryable};
ghost use Rattle.zs_events.specs.declared.entity_kind.EntityKind.TheVariants.{Queryable as queryable_kind};
ghost use Rattle.zs_events.specs.declared.event.Event.TheVariants.{Undeclare, Background};
ghost use Rattle.zs_entities.specs.Entities.{global_id};
ghost use Rattle.zs_declaring.specs.Waits.{waited_key};

use crate::undeclaration::Undeclaration;
use std::marker::Model;
use std::sync::Wait;
use zs_calls::Unspent;
use zs_cell::{Books, Caller, Drained, Item, Session, SessionError};
use zs_declaring::{leave, undeclare};
use zs_events::{BackgroundKind, EntityKind};
use zs_handlers::Handler;
use zs_keys::KeyExpr;
use zs_wire::EntityGlobalId;

/// What a session holds for whoever answers queries on a key: its handler is handed them. It is spent: undeclared, left to itself
/// or abandoned. Contracts see its session, number and key.
#[must_use = "a queryable is undeclared, left to itself or abandoned"]
pub struct Queryable<'a, H, B: Books> {
    session: &'a Session<H, B>,
    id: u32,
    key: KeyExpr<'a>,
}

impl<'a, H, B: Books> Model for Queryable<'a, H, B> {
    ghost use Rattle.zs_entities.specs.Entities.{EntitySeen};

    ghost Value = { EntitySeen };

    ghost view = { λ q. record { session = q.session.now; id = q.id; key = q.key } };
}

impl<'a, H, B: Books> Queryable<'a, H, B> {
    // The queryable that the session declared under that number.
    pub(crate) fn of(session: &'a Session<H, B>, id: u32, key: KeyExpr<'a>) -> Queryable<'a, H, B>
        ensures { result ≡ record { session = session.now; id = id; key = key.entry } }
    {
        Queryable { session, id, key }
    }

    /// The key on which it answers.
    pub fn key_expr(&self) -> &KeyExpr<'a>
        ensures { result.now ≡ self.now.key }
    {
        &self.key
    }

    /// Ends it, once that is waited for.
    pub fn undeclare(self) -> Undeclaration<Queryable<'a, H, B>>
        ensures { result ≡ record { value = self.entry; waits = false } }
    {
        Undeclaration::of(self)
    }

    /// Lets go of it: it lives on until the session is closed.
    pub fn abandon(self) {
        let Queryable {
            session: _,
            id: _,
            key,
        } = self;
        drop(key);
    }
}

impl<'a, H: Drop, B: Books> Queryable<'a, H, B> {
    /// It among the entities of the network.
    pub fn id(&self) -> EntityGlobalId
        ensures { result ≡ global_id self.now.session self.now.id }
    {
        EntityGlobalId {
            zid: self.session.zid(),
            eid: self.id,
        }
    }
}

impl<'a, H: Handler<Item> + Drop, B: Books> Queryable<'a, H, B> {
    /// Leaves it to itself: it lives on until the session is closed, and can no longer be named.
    ///
    /// # Errors
    ///
    /// `Refused`: `NotFound` where it was ended or left to itself by its number, unless the session is closed. Else
    /// `NoMemory`: no event was taken. The queryable comes back.
    pub fn set_background<R: Wait>(
        self,
        rt: &R,
        caller: &mut Caller<B>,
    ) -> Result<(), Unspent<Queryable<'a, H, B>>>
        ensures ok { OnOk result (Accepts B.Entries.settings H.evicts caller.old caller.new (Background left_queryable self.entry.id) false None) }
        ensures err { IfErr result (λ back. Stops B.Entries.settings H.evicts caller.old caller.new (Background left_queryable self.entry.id) false back.why) }
        ensures back { IfErr result (λ back. back.value ≡ self.entry) }
    {
        match leave(self.session, rt, BackgroundKind::Queryable, self.id, caller) {
            Ok(()) => {
                self.abandon();
                Ok(())
            }
            Err(why) => Err(Unspent { why, value: self }),
        }
    }

    // Ends it: where the session takes the event and accepts it, the queryable is gone.
    fn end<R: Wait>(
        &self,
        rt: &R,
        waits: bool,
        caller: &mut Caller<B>,
    ) -> Result<Option<Drained>, SessionError>
        ensures ok { IfOk result (λ drained. AcceptsFor B.Entries.settings H.evicts caller.old caller.new (Undeclare queryable_kind self.now.id) false None (waited_key waits (Undeclare queryable_kind self.now.id)) (is_some drained)) }
        ensures at_once { waits ≡ false → IfOk result (λ drained. drained ≡ None) }
        ensures err { IfErr result (λ why. Stops B.Entries.settings H.evicts caller.old caller.new (Undeclare queryable_kind self.now.id) false why) }
    {
        undeclare(
            self.session,
            rt,
            EntityKind::Queryable,
            self.id,
            waits,
            caller,
        )
    }
}

impl<'a, H: Handler<Item> + Drop, B: Books> Undeclaration<Queryable<'a, H, B>> {
    /// Ends the queryable. It answers that its callbacks have ended, where they were waited for and the session still held its
    /// handler.
    ///
    /// # Errors
    ///
    /// `Refused`: `NotFound` where it was ended or left to itself by its number, unless the session is closed. Else
    /// `NoMemory`: no event was taken. The queryable comes back.
    pub fn wait<R: Wait>(
        self,
        rt: &R,
        caller: &mut Caller<B>,
    ) -> Result<Option<Drained>, Unspent<Queryable<'a, H, B>>>
        ensures ok { IfOk result (λ drained. AcceptsFor B.Entries.settings H.evicts caller.old caller.new (Undeclare queryable_kind self.entry.value.id) false None (waited_key self.entry.waits (Undeclare queryable_kind self.entry.value.id)) (is_some drained)) }
        ensures at_once { self.entry.waits ≡ false → IfOk result (λ drained. drained ≡ None) }
        ensures err { IfErr result (λ back. Stops B.Entries.settings H.evicts caller.old caller.new (Undeclare queryable_kind self.entry.value.id) false back.why) }
        ensures back { IfErr result (λ back. back.value ≡ self.entry.value) }
    {
        let (value, waits) = self.into_parts();
        match value.end(rt, waits, caller) {
            Ok(drained) => {
                value.abandon();
                Ok(drained)
            }
            Err(why) => Err(Unspent { why, value }),
        }
    }
}
