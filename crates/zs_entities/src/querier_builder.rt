//! Queriers in the making.
ghost use Rattle.std.specs.Prelude.{◌≡◌, Some, true, false, IfOk, IfErr};
ghost use Rattle.zs_sample.specs.Quality.{number_of};
ghost use Rattle.zs_held.specs.Numbers.{numbered_at};
ghost use Rattle.zs_cell.specs.Steps.{Accepts, Stops};
ghost use Rattle.zs_calls.specs.Gets.{get_settings};
ghost use Rattle.zs_entities.specs.Builders.{new_querier, querier_event, is_any};

use crate::querier::Querier;
use std::alloc::AllocError;
use std::marker::Model;
use std::sync::Wait;
use zs_calls::key_arg;
use zs_cell::{Books, Caller, Item, Session, SessionError};
use zs_declaring::{declare_alone, querier};
use zs_events::{Event, QuerySettings};
use zs_handlers::Handler;
use zs_keys::KeyExpr;
use zs_sample::{
    CongestionControl, Locality, Priority, QoS, QoSBuilder, QoSType, QueryConsolidation,
    QueryTarget, ReplyKeyExpr,
};

/// A querier in the making. Contracts see its session and key, and how its gets ask.
#[must_use = "nothing is declared before `wait`"]
#[derive(Drop)]
pub struct QuerierBuilder<'a, H, B: Books> {
    session: &'a Session<H, B>,
    key: KeyExpr<'a>,
    settings: QuerySettings,
}

impl<'a, H, B: Books> Model for QuerierBuilder<'a, H, B> {
    ghost use Rattle.zs_entities.specs.Builders.{QuerierMade};

    ghost Value = { QuerierMade };

    ghost view = { λ b. record { session = b.session.now; key = b.key; settings = b.settings } };
}

// How gets ask where nothing is said.
fn get_settings() -> QuerySettings
    ensures { result ≡ get_settings }
{
    QuerySettings {
        destination: Locality::Any,
        target: QueryTarget::BestMatching,
        consolidation: QueryConsolidation::AUTO.mode(),
        timeout: None,
        qos: QoSType {
            priority: 5,
            congestion: CongestionControl::Block,
            express: false,
        },
        any_key: false,
    }
}

// Whether replies are taken on any key.
fn is_any(accept: ReplyKeyExpr) -> bool
    ensures { result ≡ is_any accept }
{
    match accept {
        ReplyKeyExpr::Any => true,
        ReplyKeyExpr::MatchingQuery => false,
    }
}

impl<'a, H, B: Books> QuerierBuilder<'a, H, B> {
    // A querier of which nothing else is said.
    pub(crate) fn of(session: &'a Session<H, B>, key: KeyExpr<'a>) -> QuerierBuilder<'a, H, B>
        ensures { result ≡ new_querier session.now key.entry }
    {
        QuerierBuilder {
            session,
            key,
            settings: get_settings(),
        }
    }

    /// Whose queryables are asked: by itself all are.
    pub fn allowed_destination(mut self, destination: Locality) -> QuerierBuilder<'a, H, B>
        ensures { result ≡ record self.entry { settings = record self.entry.settings { destination = destination } } }
    {
        let settings = self.settings;
        self.settings = QuerySettings {
            destination,
            ..settings
        };
        self
    }

    /// Which queryables are asked: by itself the best matching ones.
    pub fn target(mut self, target: QueryTarget) -> QuerierBuilder<'a, H, B>
        ensures { result ≡ record self.entry { settings = record self.entry.settings { target = target } } }
    {
        let settings = self.settings;
        self.settings = QuerySettings { target, ..settings };
        self
    }

    /// Which of the replies on one key are handed out: by itself the session chooses.
    pub fn consolidation(mut self, consolidation: QueryConsolidation) -> QuerierBuilder<'a, H, B>
        ensures { result ≡ record self.entry { settings = record self.entry.settings { consolidation = consolidation } } }
    {
        let settings = self.settings;
        self.settings = QuerySettings {
            consolidation: consolidation.mode(),
            ..settings
        };
        self
    }

    /// After how many milliseconds a get ends whatever is missing, in place of what the session's settings say.
    pub fn timeout(mut self, timeout: u64) -> QuerierBuilder<'a, H, B>
        ensures { result ≡ record self.entry { settings = record self.entry.settings { timeout = Some timeout } } }
    {
        let settings = self.settings;
        self.settings = QuerySettings {
            timeout: Some(timeout),
            ..settings
        };
        self
    }

    /// Whether replies are taken on any key: by itself on keys that meet the querier's. The parameters of a get can say so too.
    pub fn accept_replies(mut self, accept: ReplyKeyExpr) -> QuerierBuilder<'a, H, B>
        ensures { result ≡ record self.entry { settings = record self.entry.settings { any_key = is_any accept } } }
    {
        let settings = self.settings;
        self.settings = QuerySettings {
            any_key: is_any(accept),
            ..settings
        };
        self
    }

    /// What is done with a request where a queue on the way is full: by itself its sender waits.
    pub fn congestion_control(
        mut self,
        congestion_control: CongestionControl,
    ) -> QuerierBuilder<'a, H, B>
        ensures { result ≡ record self.entry { settings = record self.entry.settings { qos = record self.entry.settings.qos { congestion = congestion_control } } } }
    {
        let settings = self.settings;
        let qos = QoSBuilder::from(QoS::from(settings.qos));
        let qos = qos.congestion_control(congestion_control);
        self.settings = QuerySettings {
            qos: QoSType::from(QoS::from(qos)),
            ..settings
        };
        self
    }

    /// How urgent a request is: by itself it is `Data`.
    pub fn priority(mut self, priority: Priority) -> QuerierBuilder<'a, H, B>
        ensures { result ≡ record self.entry { settings = record self.entry.settings { qos = record self.entry.settings.qos { priority = number_of priority } } } }
    {
        let settings = self.settings;
        let qos = QoSBuilder::from(QoS::from(settings.qos));
        let qos = qos.priority(priority);
        self.settings = QuerySettings {
            qos: QoSType::from(QoS::from(qos)),
            ..settings
        };
        self
    }

    /// Whether a request is sent at once, and not batched: by itself it is batched.
    pub fn express(mut self, express: bool) -> QuerierBuilder<'a, H, B>
        ensures { result ≡ record self.entry { settings = record self.entry.settings { qos = record self.entry.settings.qos { express = express } } } }
    {
        let settings = self.settings;
        let qos = QoSBuilder::from(QoS::from(settings.qos));
        let qos = qos.express(express);
        self.settings = QuerySettings {
            qos: QoSType::from(QoS::from(qos)),
            ..settings
        };
        self
    }
}

impl<'a, H: Drop, B: Books> QuerierBuilder<'a, H, B> {
    // The event that declares it.
    fn event(&self) -> Result<Event, AllocError>
        ensures event { IfOk result (λ event. event ≡ querier_event self.now) }
        ensures number { IfOk result (λ event. numbered_at event ≡ true) }
    {
        let session = self.session;
        let key = key_arg(session.alloc(), session.tag(), &self.key)?;
        Ok(querier(key, self.settings))
    }

    // The querier, once it was declared under that number.
    fn into_querier(self, id: u32) -> Querier<'a, H, B>
        ensures { result ≡ record { session = self.entry.session; id = id; key = self.entry.key; settings = self.entry.settings } }
    {
        let QuerierBuilder {
            session,
            key,
            settings,
        } = self;
        Querier::of(session, id, key, settings)
    }
}

impl<'a, H: Handler<Item> + Drop, B: Books> QuerierBuilder<'a, H, B> {
    /// Declares it.
    ///
    /// # Errors
    ///
    /// `Refused`: `SessionClosedError` behind the close, `IdsExhausted` where no number of an entity is left. Else
    /// `NoMemory`: no event was taken.
    pub fn wait<R: Wait>(
        self,
        rt: &R,
        caller: &mut Caller<B>,
    ) -> Result<Querier<'a, H, B>, SessionError>
        ensures ok { IfOk result (λ made. Accepts B.Entries.settings H.evicts caller.old caller.new (querier_event self.entry) false (Some made.id)) }
        ensures made { IfOk result (λ made. made ≡ record { session = self.entry.session; id = made.id; key = self.entry.key; settings = self.entry.settings }) }
        ensures err { IfErr result (λ why. Stops B.Entries.settings H.evicts caller.old caller.new (querier_event self.entry) false why) }
    {
        let session = self.session;
        let Ok(event) = self.event() else {
            return Err(SessionError::NoMemory);
        };
        match declare_alone(session, rt, event, caller) {
            Ok(id) => Ok(self.into_querier(id)),
            Err(why) => Err(why),
        }
    }
}
