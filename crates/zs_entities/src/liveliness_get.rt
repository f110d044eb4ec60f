//! Gets of liveliness tokens.
ghost use Rattle.std.specs.Prelude.{◌≡◌, None, Some, option_map, is_some, true, IfOk, IfErr};
ghost use Rattle.std.specs.Arc.{arc_value};
ghost use Rattle.zs_turns.specs.Gates.{takes_handler};
ghost use Rattle.zs_held.specs.Numbers.{numbered_at};
ghost use Rattle.zs_cell.specs.Steps.{Accepts, Stops};
ghost use Rattle.zs_entities.specs.Builders.{new_liveliness_get, liveliness_get_event};

use std::alloc::AllocError;
use std::marker::Model;
use std::sync::{Arc, Wait};
use zs_calls::key_arg;
use zs_cell::{Books, Caller, Item, NotSubmitted, Session, SessionError, SessionToken};
use zs_declaring::{declare, liveliness_get};
use zs_events::Event;
use zs_handlers::Handler;
use zs_keys::KeyExpr;

/// A get of liveliness tokens in the making. Contracts see its fields.
#[must_use = "nothing is asked before `wait`"]
#[derive(Drop)]
pub struct LivelinessGetBuilder<'a, H, B: Books> {
    session: &'a Session<H, B>,
    key: KeyExpr<'a>,
    timeout: Option<u64>,
    cancellation_token: Option<u32>,
    handler: Option<Arc<H>>,
}

impl<'a, H, B: Books> Model for LivelinessGetBuilder<'a, H, B> {
    ghost use Rattle.std.specs.Prelude.{option_map};
    ghost use Rattle.std.specs.Arc.{arc_value};
    ghost use Rattle.zs_entities.specs.Builders.{LivelinessGetMade};

    ghost Value = { LivelinessGetMade H };

    ghost view = { λ b. record { session = b.session.now; key = b.key; timeout = b.timeout; cancellation_token = b.cancellation_token; handler = option_map arc_value b.handler } };
}

impl<'a, H, B: Books> LivelinessGetBuilder<'a, H, B> {
    // A get of which nothing else is said.
    pub(crate) fn of(session: &'a Session<H, B>, key: KeyExpr<'a>) -> LivelinessGetBuilder<'a, H, B>
        ensures { result ≡ new_liveliness_get session.now key.entry }
    {
        LivelinessGetBuilder {
            session,
            key,
            timeout: None,
            cancellation_token: None,
            handler: None,
        }
    }

    /// After how many milliseconds it ends whatever is missing, in place of what the session's settings say.
    pub fn timeout(mut self, timeout: u64) -> LivelinessGetBuilder<'a, H, B>
        ensures { result ≡ record self.entry { timeout = Some timeout } }
    {
        self.timeout = Some(timeout);
        self
    }

    /// With that handler for the tokens. Without one nobody is called.
    pub fn with(mut self, handler: Arc<H>) -> LivelinessGetBuilder<'a, H, B>
        requires { self.handler ≡ None }
        ensures { result ≡ record self.entry { handler = Some (arc_value handler) } }
    {
        match self.handler.replace(handler) {
            None => self,
            Some(_before) => unreachable!(),
        }
    }
}

impl<'a, H: Drop, B: Books> LivelinessGetBuilder<'a, H, B> {
    /// With that token of the same session: whoever cancels it ends the get.
    pub fn cancellation_token(
        mut self,
        token: &SessionToken<H, B>,
    ) -> LivelinessGetBuilder<'a, H, B>
        requires { token.now.session.tag ≡ self.session.tag }
        ensures { result ≡ record self.entry { cancellation_token = Some token.now.number } }
    {
        self.cancellation_token = Some(token.number());
        self
    }

    // The event that it is.
    fn event(&self) -> Result<Event, AllocError>
        ensures event { IfOk result (λ event. event ≡ liveliness_get_event self.now) }
        ensures number { IfOk result (λ event. numbered_at event ≡ true) }
        ensures handler { IfOk result (λ event. takes_handler event ≡ true) }
    {
        let session = self.session;
        let key = key_arg(session.alloc(), session.tag(), &self.key)?;
        Ok(liveliness_get(key, self.timeout, self.cancellation_token))
    }
}

impl<'a, H: Handler<Item> + Drop, B: Books> LivelinessGetBuilder<'a, H, B> {
    /// Asks: the number of the get.
    ///
    /// # Errors
    ///
    /// `Refused`: `SessionClosedError` behind the close, `QueryCancelled` where its cancellation token was cancelled,
    /// `IdsExhausted` where no number of an entity is left: the get draws one. Else `NoMemory`: no event was taken. The
    /// handler comes back.
    pub fn wait<R: Wait>(mut self, rt: &R, caller: &mut Caller<B>) -> Result<u32, NotSubmitted<H>>
        ensures ok { IfOk result (λ number. Accepts B.Entries.settings H.evicts caller.old caller.new (liveliness_get_event self.entry) (is_some self.entry.handler) (Some number)) }
        ensures err { IfErr result (λ back. Stops B.Entries.settings H.evicts caller.old caller.new (liveliness_get_event self.entry) (is_some self.entry.handler) back.why) }
        ensures handler { IfErr result (λ back. option_map arc_value back.handler ≡ self.entry.handler) }
    {
        let session = self.session;
        let handler = self.handler.take();
        match self.event() {
            Ok(event) => declare(session, rt, event, handler, caller),
            Err(_) => Err(NotSubmitted {
                why: SessionError::NoMemory,
                handler,
            }),
        }
    }
}
