//! Subscribers to liveliness in the making.
ghost use Rattle.std.specs.Prelude.{◌≡◌, None, Some, option_map, is_some, true, false, IfOk, IfErr};
ghost use Rattle.std.specs.Arc.{arc_value};
ghost use Rattle.zs_turns.specs.Gates.{takes_handler};
ghost use Rattle.zs_held.specs.Numbers.{numbered_at};
ghost use Rattle.zs_cell.specs.Steps.{Accepts, Stops};
ghost use Rattle.zs_entities.specs.Builders.{new_liveliness_subscriber, liveliness_subscriber_event};

use crate::background::BackgroundBuilder;
use crate::subscriber::Subscriber;
use std::alloc::AllocError;
use std::marker::Model;
use std::sync::{Arc, Wait};
use zs_calls::key_arg;
use zs_cell::{Books, Caller, Item, NotSubmitted, Session, SessionError};
use zs_declaring::{declare, liveliness_subscriber};
use zs_events::Event;
use zs_handlers::Handler;
use zs_keys::KeyExpr;

/// A subscriber to liveliness in the making. Contracts see its fields.
#[must_use = "nothing is declared before `wait`"]
#[derive(Drop)]
pub struct LivelinessSubscriberBuilder<'a, H, B: Books> {
    session: &'a Session<H, B>,
    key: KeyExpr<'a>,
    history: bool,
    handler: Option<Arc<H>>,
}

impl<'a, H, B: Books> Model for LivelinessSubscriberBuilder<'a, H, B> {
    ghost use Rattle.std.specs.Prelude.{option_map};
    ghost use Rattle.std.specs.Arc.{arc_value};
    ghost use Rattle.zs_entities.specs.Builders.{LivelinessSubscriberMade};

    ghost Value = { LivelinessSubscriberMade H };

    ghost view = { λ b. record { session = b.session.now; key = b.key; history = b.history; handler = option_map arc_value b.handler } };
}

impl<'a, H, B: Books> LivelinessSubscriberBuilder<'a, H, B> {
    // A subscriber to liveliness of which nothing else is said.
    pub(crate) fn of(
        session: &'a Session<H, B>,
        key: KeyExpr<'a>,
    ) -> LivelinessSubscriberBuilder<'a, H, B>
        ensures { result ≡ new_liveliness_subscriber session.now key.entry }
    {
        LivelinessSubscriberBuilder {
            session,
            key,
            history: false,
            handler: None,
        }
    }

    /// Whether it is handed the tokens that are there already: by itself it isn't.
    pub fn history(mut self, history: bool) -> LivelinessSubscriberBuilder<'a, H, B>
        ensures { result ≡ record self.entry { history = history } }
    {
        self.history = history;
        self
    }

    /// With that handler for the tokens that come and go. Without one nobody is called.
    pub fn with(mut self, handler: Arc<H>) -> LivelinessSubscriberBuilder<'a, H, B>
        requires { self.handler ≡ None }
        ensures { result ≡ record self.entry { handler = Some (arc_value handler) } }
    {
        match self.handler.replace(handler) {
            None => self,
            Some(_before) => unreachable!(),
        }
    }

    /// The same as what nobody holds: it lives until the session is closed.
    pub fn background(self) -> BackgroundBuilder<LivelinessSubscriberBuilder<'a, H, B>>
        ensures { result ≡ self.entry }
    {
        BackgroundBuilder::of(self)
    }
}

impl<'a, H: Drop, B: Books> LivelinessSubscriberBuilder<'a, H, B> {
    // The event that declares it.
    fn event(&self) -> Result<Event, AllocError>
        ensures event { IfOk result (λ event. event ≡ liveliness_subscriber_event self.now) }
        ensures number { IfOk result (λ event. numbered_at event ≡ true) }
        ensures handler { IfOk result (λ event. takes_handler event ≡ true) }
    {
        let session = self.session;
        let key = key_arg(session.alloc(), session.tag(), &self.key)?;
        Ok(liveliness_subscriber(self.history, key))
    }

    // The subscriber, once it was declared under that number.
    fn into_subscriber(self, id: u32) -> Subscriber<'a, H, B>
        ensures { result ≡ record { session = self.entry.session; id = id; key = self.entry.key; liveliness = true } }
    {
        let LivelinessSubscriberBuilder {
            session,
            key,
            history: _,
            handler,
        } = self;
        drop(handler);
        Subscriber::of(session, id, key, true)
    }
}

impl<'a, H: Handler<Item> + Drop, B: Books> LivelinessSubscriberBuilder<'a, H, B> {
    // Declares it: its number.
    fn declare<R: Wait>(&mut self, rt: &R, caller: &mut Caller<B>) -> Result<u32, NotSubmitted<H>>
        ensures ok { IfOk result (λ id. Accepts B.Entries.settings H.evicts caller.old caller.new (liveliness_subscriber_event self.old) (is_some self.old.handler) (Some id)) }
        ensures err { IfErr result (λ back. Stops B.Entries.settings H.evicts caller.old caller.new (liveliness_subscriber_event self.old) (is_some self.old.handler) back.why) }
        ensures handler { IfErr result (λ back. option_map arc_value back.handler ≡ self.old.handler) }
        ensures rest { self.new ≡ record self.old { handler = None } }
    {
        let session = self.session;
        let handler = self.handler.take();
        match self.event() {
            Ok(event) => declare(session, rt, event, handler, caller),
            Err(_) => Err(NotSubmitted {
                why: SessionError::NoMemory,
                handler,
            }),
        }
    }

    /// Declares it.
    ///
    /// # Errors
    ///
    /// `Refused`: `SessionClosedError` behind the close, `IdsExhausted` where no number of an entity is left. Else
    /// `NoMemory`: no event was taken. The handler comes back.
    pub fn wait<R: Wait>(
        mut self,
        rt: &R,
        caller: &mut Caller<B>,
    ) -> Result<Subscriber<'a, H, B>, NotSubmitted<H>>
        ensures ok { IfOk result (λ made. Accepts B.Entries.settings H.evicts caller.old caller.new (liveliness_subscriber_event self.entry) (is_some self.entry.handler) (Some made.id)) }
        ensures made { IfOk result (λ made. made ≡ record { session = self.entry.session; id = made.id; key = self.entry.key; liveliness = true }) }
        ensures err { IfErr result (λ back. Stops B.Entries.settings H.evicts caller.old caller.new (liveliness_subscriber_event self.entry) (is_some self.entry.handler) back.why) }
        ensures handler { IfErr result (λ back. option_map arc_value back.handler ≡ self.entry.handler) }
    {
        match self.declare(rt, caller) {
            Ok(id) => Ok(self.into_subscriber(id)),
            Err(back) => Err(back),
        }
    }
}

impl<'a, H: Handler<Item> + Drop, B: Books> BackgroundBuilder<
    LivelinessSubscriberBuilder<'a, H, B>,
> {
    /// Declares the subscriber: its number.
    ///
    /// # Errors
    ///
    /// `Refused`: `SessionClosedError` behind the close, `IdsExhausted` where no number of an entity is left. Else
    /// `NoMemory`: no event was taken. The handler comes back.
    pub fn wait<R: Wait>(self, rt: &R, caller: &mut Caller<B>) -> Result<u32, NotSubmitted<H>>
        ensures ok { IfOk result (λ id. Accepts B.Entries.settings H.evicts caller.old caller.new (liveliness_subscriber_event self.entry) (is_some self.entry.handler) (Some id)) }
        ensures err { IfErr result (λ back. Stops B.Entries.settings H.evicts caller.old caller.new (liveliness_subscriber_event self.entry) (is_some self.entry.handler) back.why) }
        ensures handler { IfErr result (λ back. option_map arc_value back.handler ≡ self.entry.handler) }
    {
        let mut builder = self.into_builder();
        builder.declare(rt, caller)
    }
}
