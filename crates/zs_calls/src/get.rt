//! Gets of a session.
ghost use Rattle.std.specs.Prelude.{◌≡◌, None, Some, option_map, is_some, true, IfOk, IfErr};
ghost use Rattle.std.specs.Arc.{arc_value};
ghost use Rattle.zs_sample.specs.Quality.{number_of};
ghost use Rattle.zs_cell.specs.Steps.{Accepts, Stops};
ghost use Rattle.zs_held.specs.Numbers.{numbered_at};
ghost use Rattle.zs_turns.specs.Gates.{takes_handler};
ghost use Rattle.zs_calls.specs.Gets.{session_get, session_get_event, get_settings, takes_any};

use crate::events::get;
use crate::stepping::ask_with;
use crate::texts::value_of;
use std::alloc::{AllocError, Global};
use std::marker::Model;
use std::sync::{Arc, Wait};
use zs_cell::{Books, Caller, Item, NotSubmitted, Session, SessionError, SessionToken, key_arg};
use zs_events::{Event, Inquiry, QuerySettings, Shared};
use zs_handlers::Handler;
use zs_sample::{
    CongestionControl, Encoding, Locality, Priority, QoS, QoSBuilder, QoSType, QueryConsolidation,
    QueryTarget, ReplyKeyExpr, Selector, SourceInfo, Text, ZBytes,
};

/// A get in the making. Contracts see what it asks for and how, what it tells, and the handler.
#[must_use = "nothing is asked before `wait`"]
#[derive(Drop)]
pub struct SessionGetBuilder<'a, H, B: Books> {
    session: &'a Session<H, B>,
    selector: &'a Selector<'a>,
    settings: QuerySettings,
    payload: Option<ZBytes>,
    encoding: Option<Encoding>,
    source_info: Option<SourceInfo>,
    attachment: Option<ZBytes>,
    cancellation_token: Option<u32>,
    handler: Option<Arc<H>>,
}

impl<'a, H, B: Books> Model for SessionGetBuilder<'a, H, B> {
    ghost use Rattle.std.specs.Prelude.{option_map};
    ghost use Rattle.std.specs.Arc.{arc_value};
    ghost use Rattle.zs_calls.specs.Gets.{SessionGetSeen};

    ghost Value = { SessionGetSeen H };

    ghost view = { λ g. record { session = g.session.now; selector = g.selector.now; settings = g.settings; payload = g.payload; encoding = g.encoding; source_info = g.source_info; attachment = g.attachment; cancellation_token = g.cancellation_token; handler = option_map arc_value g.handler } };
}

// How a get asks where nothing is said.
fn get_settings() -> QuerySettings
    ensures { result ≡ get_settings }
{
    QuerySettings {
        destination: Locality::Any,
        target: QueryTarget::BestMatching,
        consolidation: QueryConsolidation::AUTO.mode(),
        timeout: None,
        qos: QoSType {
            priority: 5,
            congestion: CongestionControl::Block,
            express: false,
        },
        any_key: false,
    }
}

// Whether replies are taken on any key, once that was said.
fn takes_any(accept: ReplyKeyExpr, before: bool) -> bool
    ensures { result ≡ takes_any accept before }
{
    match accept {
        ReplyKeyExpr::Any => true,
        ReplyKeyExpr::MatchingQuery => before,
    }
}

impl<'a, H, B: Books> SessionGetBuilder<'a, H, B> {
    // A get of which nothing else is said.
    pub(crate) fn of(
        session: &'a Session<H, B>,
        selector: &'a Selector<'a>,
    ) -> SessionGetBuilder<'a, H, B>
        ensures { result ≡ session_get session.now selector.now }
    {
        SessionGetBuilder {
            session,
            selector,
            settings: get_settings(),
            payload: None,
            encoding: None,
            source_info: None,
            attachment: None,
            cancellation_token: None,
            handler: None,
        }
    }

    /// With that payload for the queryables.
    pub fn payload(mut self, payload: ZBytes) -> SessionGetBuilder<'a, H, B>
        ensures { result ≡ record self.entry { payload = Some payload } }
    {
        self.payload = Some(payload);
        self
    }

    /// With that encoding of the payload. Without a payload the empty one is sent.
    pub fn encoding(mut self, encoding: Encoding) -> SessionGetBuilder<'a, H, B>
        ensures { result ≡ record self.entry { encoding = Some encoding } }
    {
        self.encoding = Some(encoding);
        self
    }

    /// With who asks, or without.
    pub fn source_info(mut self, source_info: Option<SourceInfo>) -> SessionGetBuilder<'a, H, B>
        ensures { result ≡ record self.entry { source_info = source_info } }
    {
        self.source_info = source_info;
        self
    }

    /// With bytes of the application's own beside the payload, or none.
    pub fn attachment(mut self, attachment: Option<ZBytes>) -> SessionGetBuilder<'a, H, B>
        ensures { result ≡ record self.entry { attachment = attachment } }
    {
        self.attachment = attachment;
        self
    }

    /// Whose queryables are asked: by itself all are.
    pub fn allowed_destination(mut self, destination: Locality) -> SessionGetBuilder<'a, H, B>
        ensures { result ≡ record self.entry { settings = record self.entry.settings { destination = destination } } }
    {
        let settings = self.settings;
        self.settings = QuerySettings {
            destination,
            ..settings
        };
        self
    }

    /// Which queryables are asked: by itself the best matching ones.
    pub fn target(mut self, target: QueryTarget) -> SessionGetBuilder<'a, H, B>
        ensures { result ≡ record self.entry { settings = record self.entry.settings { target = target } } }
    {
        let settings = self.settings;
        self.settings = QuerySettings { target, ..settings };
        self
    }

    /// Which of the replies on one key are handed out: by itself the session chooses.
    pub fn consolidation(mut self, consolidation: QueryConsolidation) -> SessionGetBuilder<'a, H, B>
        ensures { result ≡ record self.entry { settings = record self.entry.settings { consolidation = consolidation } } }
    {
        let settings = self.settings;
        self.settings = QuerySettings {
            consolidation: consolidation.mode(),
            ..settings
        };
        self
    }

    /// After how many milliseconds it ends whatever is missing, in place of what the session's settings say.
    pub fn timeout(mut self, timeout: u64) -> SessionGetBuilder<'a, H, B>
        ensures { result ≡ record self.entry { settings = record self.entry.settings { timeout = Some timeout } } }
    {
        let settings = self.settings;
        self.settings = QuerySettings {
            timeout: Some(timeout),
            ..settings
        };
        self
    }

    /// Whether replies are taken on any key: `Any` stays, though `MatchingQuery` follows. The parameters can say so too.
    pub fn accept_replies(mut self, accept: ReplyKeyExpr) -> SessionGetBuilder<'a, H, B>
        ensures { result ≡ record self.entry { settings = record self.entry.settings { any_key = takes_any accept self.entry.settings.any_key } } }
    {
        let settings = self.settings;
        self.settings = QuerySettings {
            any_key: takes_any(accept, settings.any_key),
            ..settings
        };
        self
    }

    /// What is done with the request where a queue on the way is full: by itself its sender waits.
    pub fn congestion_control(
        mut self,
        congestion_control: CongestionControl,
    ) -> SessionGetBuilder<'a, H, B>
        ensures { result ≡ record self.entry { settings = record self.entry.settings { qos = record self.entry.settings.qos { congestion = congestion_control } } } }
    {
        let settings = self.settings;
        let qos = QoSBuilder::from(QoS::from(settings.qos));
        let qos = qos.congestion_control(congestion_control);
        self.settings = QuerySettings {
            qos: QoSType::from(QoS::from(qos)),
            ..settings
        };
        self
    }

    /// How urgent the request is: by itself it is `Data`.
    pub fn priority(mut self, priority: Priority) -> SessionGetBuilder<'a, H, B>
        ensures { result ≡ record self.entry { settings = record self.entry.settings { qos = record self.entry.settings.qos { priority = number_of priority } } } }
    {
        let settings = self.settings;
        let qos = QoSBuilder::from(QoS::from(settings.qos));
        let qos = qos.priority(priority);
        self.settings = QuerySettings {
            qos: QoSType::from(QoS::from(qos)),
            ..settings
        };
        self
    }

    /// Whether the request is sent at once, and not batched: by itself it is batched.
    pub fn express(mut self, express: bool) -> SessionGetBuilder<'a, H, B>
        ensures { result ≡ record self.entry { settings = record self.entry.settings { qos = record self.entry.settings.qos { express = express } } } }
    {
        let settings = self.settings;
        let qos = QoSBuilder::from(QoS::from(settings.qos));
        let qos = qos.express(express);
        self.settings = QuerySettings {
            qos: QoSType::from(QoS::from(qos)),
            ..settings
        };
        self
    }

    /// With that handler for the replies. Without one nobody is called.
    pub fn with(mut self, handler: Arc<H>) -> SessionGetBuilder<'a, H, B>
        requires { self.handler ≡ None }
        ensures { result ≡ record self.entry { handler = Some (arc_value handler) } }
    {
        match self.handler.replace(handler) {
            None => self,
            Some(_before) => unreachable!(),
        }
    }
}

impl<'a, H: Drop, B: Books> SessionGetBuilder<'a, H, B> {
    /// With that token of the same session: whoever cancels it ends the get.
    pub fn cancellation_token(mut self, token: &SessionToken<H, B>) -> SessionGetBuilder<'a, H, B>
        requires { token.now.session.tag ≡ self.session.tag }
        ensures { result ≡ record self.entry { cancellation_token = Some token.now.number } }
    {
        self.cancellation_token = Some(token.number());
        self
    }

    // The event that it is.
    fn into_event(self, alloc: Global) -> Result<Event, AllocError>
        ensures event { IfOk result (λ event. event ≡ session_get_event self.entry) }
        ensures number { IfOk result (λ event. numbered_at event ≡ true) }
        ensures handler { IfOk result (λ event. takes_handler event ≡ true) }
    {
        let SessionGetBuilder {
            session,
            selector,
            settings,
            payload,
            encoding,
            source_info,
            attachment,
            cancellation_token,
            handler,
        } = self;
        drop(handler);
        let key = key_arg(alloc, session.tag(), selector.key_expr())?;
        let parameters = Text::of(alloc, selector.parameters().as_str())?;
        let value = value_of(alloc, payload, &encoding)?;
        let inquiry = Inquiry {
            parameters,
            value,
            source: source_info,
            attachment,
            cancellation_token,
        };
        let inquiry = Shared::new(alloc, inquiry)?;
        Ok(get(key, settings, inquiry))
    }
}

impl<'a, H: Handler<Item> + Drop, B: Books> SessionGetBuilder<'a, H, B> {
    /// Asks: the number of the get.
    ///
    /// # Errors
    ///
    /// `Refused`: `SessionClosedError` behind the close, `QueryCancelled` where its cancellation token was cancelled,
    /// `IdsExhausted` where no number of a get is left, or fewer numbers of queries than it meets queryables here. Else
    /// `NoMemory`: no event was taken. The handler comes back.
    pub fn wait<R: Wait>(mut self, rt: &R, caller: &mut Caller<B>) -> Result<u32, NotSubmitted<H>>
        ensures ok { IfOk result (λ number. Accepts B.Entries.settings H.evicts caller.old caller.new (session_get_event self.entry) (is_some self.entry.handler) (Some number)) }
        ensures err { IfErr result (λ back. Stops B.Entries.settings H.evicts caller.old caller.new (session_get_event self.entry) (is_some self.entry.handler) back.why) }
        ensures handler { IfErr result (λ back. option_map arc_value back.handler ≡ self.entry.handler) }
    {
        let session = self.session;
        let handler = self.handler.take();
        let Ok(event) = self.into_event(session.alloc()) else {
            return Err(NotSubmitted {
                why: SessionError::NoMemory,
                handler,
            });
        };
        ask_with(session, rt, event, handler, caller)
    }
}
