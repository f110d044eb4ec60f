//! Queriers.
ghost use Rattle.std.specs.Prelude.{◌≡◌, IfOk, IfErr, None, false, is_some};
ghost use Rattle.zs_sample.specs.Quality.{priority_of};
ghost use Rattle.zs_events.specs.declared.entity_kind.EntityKind.TheVariants.{Querier as querier_kind};
ghost use Rattle.zs_events.specs.declared.entity_kind.ParentKind.TheVariants.{Querier as querier_parent};
ghost use Rattle.zs_events.specs.declared.event.Event.TheVariants.{Status, Undeclare};
ghost use Rattle.zs_cell.specs.Steps.{AcceptsFor, Stops};
ghost use Rattle.zs_calls.specs.Gets.{querier_get};
ghost use Rattle.zs_declaring.specs.Statuses.{Tells};
ghost use Rattle.zs_entities.specs.Builders.{new_listener};
ghost use Rattle.zs_entities.specs.Entities.{global_id, replies_on};
ghost use Rattle.zs_declaring.specs.Waits.{waited_key};

use crate::matching_listener_builder::MatchingListenerBuilder;
use crate::undeclaration::Undeclaration;
use std::marker::Model;
use std::sync::Wait;
use zs_calls::{QuerierGetBuilder, Unspent};
use zs_cell::{Books, Caller, Drained, Item, Session, SessionError};
use zs_declaring::{status, undeclare};
use zs_events::{EntityKind, ParentKind, QuerySettings};
use zs_handlers::Handler;
use zs_keys::KeyExpr;
use zs_sample::{CongestionControl, MatchingStatus, Priority, QoS, ReplyKeyExpr};
use zs_wire::EntityGlobalId;

/// What a session holds for whoever asks on a key again and again. It is spent: undeclared or abandoned. Contracts see its session,
/// number and key, and how its gets ask.
#[must_use = "a querier is undeclared or abandoned"]
pub struct Querier<'a, H, B: Books> {
    session: &'a Session<H, B>,
    id: u32,
    key: KeyExpr<'a>,
    settings: QuerySettings,
}

impl<'a, H, B: Books> Model for Querier<'a, H, B> {
    ghost use Rattle.zs_entities.specs.Entities.{QuerierSeen};

    ghost Value = { QuerierSeen };

    ghost view = { λ q. record { session = q.session.now; id = q.id; key = q.key; settings = q.settings } };
}

// On which keys replies are taken.
fn replies_on(any_key: bool) -> ReplyKeyExpr
    ensures { result ≡ replies_on any_key }
{
    if any_key {
        ReplyKeyExpr::Any
    } else {
        ReplyKeyExpr::MatchingQuery
    }
}

impl<'a, H, B: Books> Querier<'a, H, B> {
    // The querier that the session declared under that number.
    pub(crate) fn of(
        session: &'a Session<H, B>,
        id: u32,
        key: KeyExpr<'a>,
        settings: QuerySettings,
    ) -> Querier<'a, H, B>
        ensures { result ≡ record { session = session.now; id = id; key = key.entry; settings = settings } }
    {
        Querier {
            session,
            id,
            key,
            settings,
        }
    }

    /// The key on which it asks.
    pub fn key_expr(&self) -> &KeyExpr<'a>
        ensures { result.now ≡ self.now.key }
    {
        &self.key
    }

    /// What is done with its requests where a queue on the way is full.
    pub fn congestion_control(&self) -> CongestionControl
        ensures { result ≡ self.now.settings.qos.congestion }
    {
        let settings = self.settings;
        settings.qos.congestion
    }

    /// How urgent its requests are.
    pub fn priority(&self) -> Priority
        ensures { result ≡ priority_of self.now.settings.qos.priority }
    {
        let settings = self.settings;
        QoS::from(settings.qos).priority()
    }

    /// On which keys it takes replies.
    pub fn accept_replies(&self) -> ReplyKeyExpr
        ensures { result ≡ replies_on self.now.settings.any_key }
    {
        let settings = self.settings;
        replies_on(settings.any_key)
    }

    /// A get of what others have under its key.
    pub fn get(&self) -> QuerierGetBuilder<'a, H, B>
        ensures { result ≡ querier_get self.now.session self.now.id }
    {
        QuerierGetBuilder::of(self.session, self.id)
    }

    /// A listener, which is told whether anyone answers its gets.
    pub fn matching_listener(&self) -> MatchingListenerBuilder<'a, H, B>
        ensures { result ≡ new_listener self.now.session querier_parent self.now.id }
    {
        MatchingListenerBuilder::of(self.session, ParentKind::Querier, self.id)
    }

    /// Ends it, once that is waited for. Its gets end with it.
    pub fn undeclare(self) -> Undeclaration<Querier<'a, H, B>>
        ensures { result ≡ record { value = self.entry; waits = false } }
    {
        Undeclaration::of(self)
    }

    /// Lets go of it: it lives on until the session is closed.
    pub fn abandon(self) {
        let Querier {
            session: _,
            id: _,
            key,
            settings: _,
        } = self;
        drop(key);
    }
}

impl<'a, H: Drop, B: Books> Querier<'a, H, B> {
    /// It among the entities of the network.
    pub fn id(&self) -> EntityGlobalId
        ensures { result ≡ global_id self.now.session self.now.id }
    {
        EntityGlobalId {
            zid: self.session.zid(),
            eid: self.id,
        }
    }
}

impl<'a, H: Handler<Item> + Drop, B: Books> Querier<'a, H, B> {
    /// Whether anyone answers its gets.
    ///
    /// # Errors
    ///
    /// `Refused`: `SessionClosedError` behind the close, `NotFound` where the querier was ended by its number. Else
    /// `NoMemory`: no event was taken.
    pub fn matching_status<R: Wait>(
        &self,
        rt: &R,
        caller: &mut Caller<B>,
    ) -> Result<MatchingStatus, SessionError>
        ensures ok { IfOk result (λ matching. Tells B.Entries.settings H.evicts caller.old caller.new querier_parent self.now.id matching) }
        ensures err { IfErr result (λ why. Stops B.Entries.settings H.evicts caller.old caller.new (Status querier_parent self.now.id) false why) }
    {
        status(self.session, rt, ParentKind::Querier, self.id, caller)
    }

    // Ends it: where the session takes the event and accepts it, the querier is gone.
    fn end<R: Wait>(
        &self,
        rt: &R,
        waits: bool,
        caller: &mut Caller<B>,
    ) -> Result<Option<Drained>, SessionError>
        ensures ok { IfOk result (λ drained. AcceptsFor B.Entries.settings H.evicts caller.old caller.new (Undeclare querier_kind self.now.id) false None (waited_key waits (Undeclare querier_kind self.now.id)) (is_some drained)) }
        ensures at_once { waits ≡ false → IfOk result (λ drained. drained ≡ None) }
        ensures err { IfErr result (λ why. Stops B.Entries.settings H.evicts caller.old caller.new (Undeclare querier_kind self.now.id) false why) }
    {
        undeclare(
            self.session,
            rt,
            EntityKind::Querier,
            self.id,
            waits,
            caller,
        )
    }
}

impl<'a, H: Handler<Item> + Drop, B: Books> Undeclaration<Querier<'a, H, B>> {
    /// Ends the querier, and its gets with it. It answers that the callbacks of its gets and listeners have ended, where they were
    /// waited for and the session still held their gate.
    ///
    /// # Errors
    ///
    /// `Refused`: `NotFound` where it was ended by its number already, unless the session is closed. Else `NoMemory`:
    /// no event was taken. The querier comes back.
    pub fn wait<R: Wait>(
        self,
        rt: &R,
        caller: &mut Caller<B>,
    ) -> Result<Option<Drained>, Unspent<Querier<'a, H, B>>>
        ensures ok { IfOk result (λ drained. AcceptsFor B.Entries.settings H.evicts caller.old caller.new (Undeclare querier_kind self.entry.value.id) false None (waited_key self.entry.waits (Undeclare querier_kind self.entry.value.id)) (is_some drained)) }
        ensures at_once { self.entry.waits ≡ false → IfOk result (λ drained. drained ≡ None) }
        ensures err { IfErr result (λ back. Stops B.Entries.settings H.evicts caller.old caller.new (Undeclare querier_kind self.entry.value.id) false back.why) }
        ensures back { IfErr result (λ back. back.value ≡ self.entry.value) }
    {
        let (value, waits) = self.into_parts();
        match value.end(rt, waits, caller) {
            Ok(drained) => {
                value.abandon();
                Ok(drained)
            }
            Err(why) => Err(Unspent { why, value }),
        }
    }
}
