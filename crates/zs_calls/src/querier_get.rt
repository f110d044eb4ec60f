//! Gets of queriers.
ghost use Rattle.std.specs.Prelude.{◌≡◌, None, Some, option_map, is_some, true, IfOk, IfErr};
ghost use Rattle.std.specs.Arc.{arc_value};
ghost use Rattle.zs_cell.specs.Steps.{Accepts, Stops};
ghost use Rattle.zs_held.specs.Numbers.{numbered_at};
ghost use Rattle.zs_turns.specs.Gates.{takes_handler};
ghost use Rattle.zs_calls.specs.Gets.{querier_get, querier_get_event};

use crate::events::querier_get;
use crate::stepping::ask_with;
use crate::texts::value_of;
use std::alloc::{AllocError, Global};
use std::marker::Model;
use std::sync::{Arc, Wait};
use zs_cell::{Books, Caller, Item, NotSubmitted, Session, SessionError, SessionToken};
use zs_events::{Event, Inquiry, Shared};
use zs_handlers::Handler;
use zs_sample::{Encoding, Parameters, SourceInfo, Text, ZBytes};

/// A get of a querier in the making. Contracts see what it asks, what it tells, and the handler.
#[must_use = "nothing is asked before `wait`"]
#[derive(Drop)]
pub struct QuerierGetBuilder<'a, H, B: Books> {
    session: &'a Session<H, B>,
    id: u32,
    parameters: Parameters<'a>,
    payload: Option<ZBytes>,
    encoding: Option<Encoding>,
    source_info: Option<SourceInfo>,
    attachment: Option<ZBytes>,
    cancellation_token: Option<u32>,
    handler: Option<Arc<H>>,
}

impl<'a, H, B: Books> Model for QuerierGetBuilder<'a, H, B> {
    ghost use Rattle.std.specs.Prelude.{option_map};
    ghost use Rattle.std.specs.Arc.{arc_value};
    ghost use Rattle.zs_calls.specs.Gets.{QuerierGetSeen};

    ghost Value = { QuerierGetSeen H };

    ghost view = { λ g. record { session = g.session.now; id = g.id; parameters = g.parameters; payload = g.payload; encoding = g.encoding; source_info = g.source_info; attachment = g.attachment; cancellation_token = g.cancellation_token; handler = option_map arc_value g.handler } };
}

impl<'a, H, B: Books> QuerierGetBuilder<'a, H, B> {
    /// A get of that querier of the session, of which nothing else is said.
    pub fn of(session: &'a Session<H, B>, id: u32) -> QuerierGetBuilder<'a, H, B>
        ensures { result ≡ querier_get session.now id }
    {
        QuerierGetBuilder {
            session,
            id,
            parameters: Parameters::of(""),
            payload: None,
            encoding: None,
            source_info: None,
            attachment: None,
            cancellation_token: None,
            handler: None,
        }
    }

    /// With those parameters in place of none.
    pub fn parameters(mut self, parameters: Parameters<'a>) -> QuerierGetBuilder<'a, H, B>
        ensures { result ≡ record self.entry { parameters = parameters.entry } }
    {
        self.parameters = parameters;
        self
    }

    /// With that payload for the queryables.
    pub fn payload(mut self, payload: ZBytes) -> QuerierGetBuilder<'a, H, B>
        ensures { result ≡ record self.entry { payload = Some payload } }
    {
        self.payload = Some(payload);
        self
    }

    /// With that encoding of the payload. Without a payload the empty one is sent.
    pub fn encoding(mut self, encoding: Encoding) -> QuerierGetBuilder<'a, H, B>
        ensures { result ≡ record self.entry { encoding = Some encoding } }
    {
        self.encoding = Some(encoding);
        self
    }

    /// With who asks, or without.
    pub fn source_info(mut self, source_info: Option<SourceInfo>) -> QuerierGetBuilder<'a, H, B>
        ensures { result ≡ record self.entry { source_info = source_info } }
    {
        self.source_info = source_info;
        self
    }

    /// With bytes of the application's own beside the payload, or none.
    pub fn attachment(mut self, attachment: Option<ZBytes>) -> QuerierGetBuilder<'a, H, B>
        ensures { result ≡ record self.entry { attachment = attachment } }
    {
        self.attachment = attachment;
        self
    }

    /// With that handler for the replies. Without one nobody is called.
    pub fn with(mut self, handler: Arc<H>) -> QuerierGetBuilder<'a, H, B>
        requires { self.handler ≡ None }
        ensures { result ≡ record self.entry { handler = Some (arc_value handler) } }
    {
        match self.handler.replace(handler) {
            None => self,
            Some(_before) => unreachable!(),
        }
    }
}

impl<'a, H: Drop, B: Books> QuerierGetBuilder<'a, H, B> {
    /// With that token of the same session: whoever cancels it ends the get.
    pub fn cancellation_token(mut self, token: &SessionToken<H, B>) -> QuerierGetBuilder<'a, H, B>
        requires { token.now.session.tag ≡ self.session.tag }
        ensures { result ≡ record self.entry { cancellation_token = Some token.now.number } }
    {
        self.cancellation_token = Some(token.number());
        self
    }

    // The event that it is.
    fn into_event(self, alloc: Global) -> Result<Event, AllocError>
        ensures event { IfOk result (λ event. event ≡ querier_get_event self.entry) }
        ensures number { IfOk result (λ event. numbered_at event ≡ true) }
        ensures handler { IfOk result (λ event. takes_handler event ≡ true) }
    {
        let QuerierGetBuilder {
            session: _,
            id,
            parameters,
            payload,
            encoding,
            source_info,
            attachment,
            cancellation_token,
            handler,
        } = self;
        drop(handler);
        let parameters = Text::of(alloc, parameters.as_str())?;
        let value = value_of(alloc, payload, &encoding)?;
        let inquiry = Inquiry {
            parameters,
            value,
            source: source_info,
            attachment,
            cancellation_token,
        };
        let inquiry = Shared::new(alloc, inquiry)?;
        Ok(querier_get(id, inquiry))
    }
}

impl<'a, H: Handler<Item> + Drop, B: Books> QuerierGetBuilder<'a, H, B> {
    /// Asks: the number of the get.
    ///
    /// # Errors
    ///
    /// `Refused`: `SessionClosedError` behind the close, `NotFound` where no querier of that number lives,
    /// `QueryCancelled` where its cancellation token was cancelled, `IdsExhausted` where no number of a get is left, or
    /// fewer numbers of queries than it meets queryables here. Else `NoMemory`: no event was taken. The handler comes
    /// back.
    pub fn wait<R: Wait>(mut self, rt: &R, caller: &mut Caller<B>) -> Result<u32, NotSubmitted<H>>
        ensures ok { IfOk result (λ number. Accepts B.Entries.settings H.evicts caller.old caller.new (querier_get_event self.entry) (is_some self.entry.handler) (Some number)) }
        ensures err { IfErr result (λ back. Stops B.Entries.settings H.evicts caller.old caller.new (querier_get_event self.entry) (is_some self.entry.handler) back.why) }
        ensures handler { IfErr result (λ back. option_map arc_value back.handler ≡ self.entry.handler) }
    {
        let session = self.session;
        let handler = self.handler.take();
        let Ok(event) = self.into_event(session.alloc()) else {
            return Err(NotSubmitted {
                why: SessionError::NoMemory,
                handler,
            });
        };
        ask_with(session, rt, event, handler, caller)
    }
}
