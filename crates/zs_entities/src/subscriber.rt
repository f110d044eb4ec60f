//! Subscribers, to what is published and to liveliness.
ghost use Rattle.std.specs.Prelude.{◌≡◌, IfOk, IfErr, OnOk, None, false, is_some};
ghost use Rattle.zs_cell.specs.Steps.{Accepts, AcceptsFor, Stops};
ghost use Rattle.zs_entities.specs.Entities.{global_id, subscriber_kind, left_kind, end_subscriber, leave_subscriber};
ghost use Rattle.zs_declaring.specs.Waits.{waited_key};

use crate::undeclaration::Undeclaration;
use std::marker::Model;
use std::sync::Wait;
use zs_calls::Unspent;
use zs_cell::{Books, Caller, Drained, Item, Session, SessionError};
use zs_declaring::{leave, undeclare};
use zs_events::{BackgroundKind, EntityKind};
use zs_handlers::Handler;
use zs_keys::KeyExpr;
use zs_wire::EntityGlobalId;

/// What a session holds for whoever subscribes to a key: its handler is handed what is published there, or the liveliness of
/// tokens. It is spent: undeclared, left to itself or abandoned. Contracts see its session, number, key and sort.
#[must_use = "a subscriber is undeclared, left to itself or abandoned"]
pub struct Subscriber<'a, H, B: Books> {
    session: &'a Session<H, B>,
    id: u32,
    key: KeyExpr<'a>,
    liveliness: bool,
}

impl<'a, H, B: Books> Model for Subscriber<'a, H, B> {
    ghost use Rattle.zs_entities.specs.Entities.{SubscriberSeen};

    ghost Value = { SubscriberSeen };

    ghost view = { λ s. record { session = s.session.now; id = s.id; key = s.key; liveliness = s.liveliness } };
}

// The sort by which a subscriber is undeclared.
fn subscriber_kind(liveliness: bool) -> EntityKind
    ensures { result ≡ subscriber_kind liveliness }
{
    if liveliness {
        EntityKind::Lsub
    } else {
        EntityKind::Sub
    }
}

// The sort by which a subscriber is left to itself.
fn left_kind(liveliness: bool) -> BackgroundKind
    ensures { result ≡ left_kind liveliness }
{
    if liveliness {
        BackgroundKind::Lsub
    } else {
        BackgroundKind::Sub
    }
}

impl<'a, H, B: Books> Subscriber<'a, H, B> {
    // The subscriber that the session declared under that number.
    pub(crate) fn of(
        session: &'a Session<H, B>,
        id: u32,
        key: KeyExpr<'a>,
        liveliness: bool,
    ) -> Subscriber<'a, H, B>
        ensures { result ≡ record { session = session.now; id = id; key = key.entry; liveliness = liveliness } }
    {
        Subscriber {
            session,
            id,
            key,
            liveliness,
        }
    }

    /// The key to which it subscribes.
    pub fn key_expr(&self) -> &KeyExpr<'a>
        ensures { result.now ≡ self.now.key }
    {
        &self.key
    }

    /// Ends it, once that is waited for.
    pub fn undeclare(self) -> Undeclaration<Subscriber<'a, H, B>>
        ensures { result ≡ record { value = self.entry; waits = false } }
    {
        Undeclaration::of(self)
    }

    /// Lets go of it: it lives on until the session is closed.
    pub fn abandon(self) {
        let Subscriber {
            session: _,
            id: _,
            key,
            liveliness: _,
        } = self;
        drop(key);
    }
}

impl<'a, H: Drop, B: Books> Subscriber<'a, H, B> {
    /// It among the entities of the network.
    pub fn id(&self) -> EntityGlobalId
        ensures { result ≡ global_id self.now.session self.now.id }
    {
        EntityGlobalId {
            zid: self.session.zid(),
            eid: self.id,
        }
    }
}

impl<'a, H: Handler<Item> + Drop, B: Books> Subscriber<'a, H, B> {
    /// Leaves it to itself: it lives on until the session is closed, and can no longer be named.
    ///
    /// # Errors
    ///
    /// `Refused`: `NotFound` where it was ended or left to itself by its number, unless the session is closed. Else
    /// `NoMemory`: no event was taken. The subscriber comes back.
    pub fn set_background<R: Wait>(
        self,
        rt: &R,
        caller: &mut Caller<B>,
    ) -> Result<(), Unspent<Subscriber<'a, H, B>>>
        ensures ok { OnOk result (Accepts B.Entries.settings H.evicts caller.old caller.new (leave_subscriber self.entry) false None) }
        ensures err { IfErr result (λ back. Stops B.Entries.settings H.evicts caller.old caller.new (leave_subscriber self.entry) false back.why) }
        ensures back { IfErr result (λ back. back.value ≡ self.entry) }
    {
        let kind = left_kind(self.liveliness);
        match leave(self.session, rt, kind, self.id, caller) {
            Ok(()) => {
                self.abandon();
                Ok(())
            }
            Err(why) => Err(Unspent { why, value: self }),
        }
    }

    // Ends it: where the session takes the event and accepts it, the subscriber is gone.
    fn end<R: Wait>(
        &self,
        rt: &R,
        waits: bool,
        caller: &mut Caller<B>,
    ) -> Result<Option<Drained>, SessionError>
        ensures ok { IfOk result (λ drained. AcceptsFor B.Entries.settings H.evicts caller.old caller.new (end_subscriber self.now) false None (waited_key waits (end_subscriber self.now)) (is_some drained)) }
        ensures at_once { waits ≡ false → IfOk result (λ drained. drained ≡ None) }
        ensures err { IfErr result (λ why. Stops B.Entries.settings H.evicts caller.old caller.new (end_subscriber self.now) false why) }
    {
        let kind = subscriber_kind(self.liveliness);
        undeclare(self.session, rt, kind, self.id, waits, caller)
    }
}

impl<'a, H: Handler<Item> + Drop, B: Books> Undeclaration<Subscriber<'a, H, B>> {
    /// Ends the subscriber. It answers that its callbacks have ended, where they were waited for and the session still held its
    /// handler.
    ///
    /// # Errors
    ///
    /// `Refused`: `NotFound` where it was ended or left to itself by its number, unless the session is closed. Else
    /// `NoMemory`: no event was taken. The subscriber comes back.
    pub fn wait<R: Wait>(
        self,
        rt: &R,
        caller: &mut Caller<B>,
    ) -> Result<Option<Drained>, Unspent<Subscriber<'a, H, B>>>
        ensures ok { IfOk result (λ drained. AcceptsFor B.Entries.settings H.evicts caller.old caller.new (end_subscriber self.entry.value) false None (waited_key self.entry.waits (end_subscriber self.entry.value)) (is_some drained)) }
        ensures at_once { self.entry.waits ≡ false → IfOk result (λ drained. drained ≡ None) }
        ensures err { IfErr result (λ back. Stops B.Entries.settings H.evicts caller.old caller.new (end_subscriber self.entry.value) false back.why) }
        ensures back { IfErr result (λ back. back.value ≡ self.entry.value) }
    {
        let (value, waits) = self.into_parts();
        match value.end(rt, waits, caller) {
            Ok(drained) => {
                value.abandon();
                Ok(drained)
            }
            Err(why) => Err(Unspent { why, value }),
        }
    }
}
