//! Listeners to the matching of a publisher or a querier.
ghost use Rattle.std.specs.Prelude.{◌≡◌, IfOk, IfErr, OnOk, None, false, is_some};
ghost use Rattle.zs_cell.specs.Steps.{Accepts, AcceptsFor, Stops};
ghost use Rattle.zs_events.specs.declared.entity_kind.BackgroundKind.TheVariants.{Listener as left_listener};
ghost use Rattle.zs_events.specs.declared.entity_kind.EntityKind.TheVariants.{Listener as listener_kind};
ghost use Rattle.zs_events.specs.declared.event.Event.TheVariants.{Undeclare, Background};
ghost use Rattle.zs_declaring.specs.Waits.{waited_key};

use crate::undeclaration::Undeclaration;
use std::marker::Model;
use std::sync::Wait;
use zs_calls::Unspent;
use zs_cell::{Books, Caller, Drained, Item, Session, SessionError};
use zs_declaring::{leave, undeclare};
use zs_events::{BackgroundKind, EntityKind};
use zs_handlers::Handler;

/// What a session holds for whoever wants to know whether anyone matches a publisher or a querier: its handler is told of each
/// change. It ends with its publisher or querier. It is spent: undeclared, left to itself or abandoned. Contracts see its session
/// and number.
#[must_use = "a listener is undeclared, left to itself or abandoned"]
pub struct MatchingListener<'a, H, B: Books> {
    session: &'a Session<H, B>,
    id: u32,
}

impl<'a, H, B: Books> Model for MatchingListener<'a, H, B> {
    ghost use Rattle.zs_entities.specs.Entities.{ListenerSeen};

    ghost Value = { ListenerSeen };

    ghost view = { λ l. record { session = l.session.now; id = l.id } };
}

impl<'a, H, B: Books> MatchingListener<'a, H, B> {
    // The listener that the session declared under that number.
    pub(crate) fn of(session: &'a Session<H, B>, id: u32) -> MatchingListener<'a, H, B>
        ensures { result ≡ record { session = session.now; id = id } }
    {
        MatchingListener { session, id }
    }

    /// Ends it, once that is waited for.
    pub fn undeclare(self) -> Undeclaration<MatchingListener<'a, H, B>>
        ensures { result ≡ record { value = self.entry; waits = false } }
    {
        Undeclaration::of(self)
    }

    /// Lets go of it: it lives on until the session is closed, or its publisher or querier ends.
    pub fn abandon(self) {
        let MatchingListener { session: _, id: _ } = self;
    }
}

impl<'a, H: Handler<Item> + Drop, B: Books> MatchingListener<'a, H, B> {
    /// Leaves it to itself: it lives on until the session is closed or its publisher or querier ends, and
    /// can no longer be named.
    ///
    /// # Errors
    ///
    /// `Refused`: `NotFound` where its publisher or querier has ended or it was ended or left to itself by its number,
    /// unless the session is closed. Else `NoMemory`: no event was taken. The listener comes back.
    pub fn set_background<R: Wait>(
        self,
        rt: &R,
        caller: &mut Caller<B>,
    ) -> Result<(), Unspent<MatchingListener<'a, H, B>>>
        ensures ok { OnOk result (Accepts B.Entries.settings H.evicts caller.old caller.new (Background left_listener self.entry.id) false None) }
        ensures err { IfErr result (λ back. Stops B.Entries.settings H.evicts caller.old caller.new (Background left_listener self.entry.id) false back.why) }
        ensures back { IfErr result (λ back. back.value ≡ self.entry) }
    {
        match leave(self.session, rt, BackgroundKind::Listener, self.id, caller) {
            Ok(()) => {
                self.abandon();
                Ok(())
            }
            Err(why) => Err(Unspent { why, value: self }),
        }
    }

    // Ends it: where the session takes the event and accepts it, the listener is gone.
    fn end<R: Wait>(
        &self,
        rt: &R,
        waits: bool,
        caller: &mut Caller<B>,
    ) -> Result<Option<Drained>, SessionError>
        ensures ok { IfOk result (λ drained. AcceptsFor B.Entries.settings H.evicts caller.old caller.new (Undeclare listener_kind self.now.id) false None (waited_key waits (Undeclare listener_kind self.now.id)) (is_some drained)) }
        ensures at_once { waits ≡ false → IfOk result (λ drained. drained ≡ None) }
        ensures err { IfErr result (λ why. Stops B.Entries.settings H.evicts caller.old caller.new (Undeclare listener_kind self.now.id) false why) }
    {
        undeclare(
            self.session,
            rt,
            EntityKind::Listener,
            self.id,
            waits,
            caller,
        )
    }
}

impl<'a, H: Handler<Item> + Drop, B: Books> Undeclaration<MatchingListener<'a, H, B>> {
    /// Ends the listener. It answers that its callbacks have ended, where they were waited for and the session still held its
    /// handler.
    ///
    /// # Errors
    ///
    /// `Refused`: `NotFound` where its publisher or querier has ended or it was ended or left to itself by its number,
    /// unless the session is closed. Else `NoMemory`: no event was taken. The listener comes back.
    pub fn wait<R: Wait>(
        self,
        rt: &R,
        caller: &mut Caller<B>,
    ) -> Result<Option<Drained>, Unspent<MatchingListener<'a, H, B>>>
        ensures ok { IfOk result (λ drained. AcceptsFor B.Entries.settings H.evicts caller.old caller.new (Undeclare listener_kind self.entry.value.id) false None (waited_key self.entry.waits (Undeclare listener_kind self.entry.value.id)) (is_some drained)) }
        ensures at_once { self.entry.waits ≡ false → IfOk result (λ drained. drained ≡ None) }
        ensures err { IfErr result (λ back. Stops B.Entries.settings H.evicts caller.old caller.new (Undeclare listener_kind self.entry.value.id) false back.why) }
        ensures back { IfErr result (λ back. back.value ≡ self.entry.value) }
    {
        let (value, waits) = self.into_parts();
        match value.end(rt, waits, caller) {
            Ok(drained) => {
                value.abandon();
                Ok(drained)
            }
            Err(why) => Err(Unspent { why, value }),
        }
    }
}
