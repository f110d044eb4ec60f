//! Subscribers in the making.
ghost use Rattle.std.specs.Prelude.{◌≡◌, None, Some, option_map, is_some, true, false, IfOk, IfErr};
ghost use Rattle.std.specs.Arc.{arc_value};
ghost use Rattle.zs_turns.specs.Gates.{takes_handler};
ghost use Rattle.zs_held.specs.Numbers.{numbered_at};
ghost use Rattle.zs_cell.specs.Steps.{Accepts, Stops};
ghost use Rattle.zs_entities.specs.Builders.{new_subscriber, subscriber_event};

use crate::background::BackgroundBuilder;
use crate::subscriber::Subscriber;
use std::alloc::AllocError;
use std::marker::Model;
use std::sync::{Arc, Wait};
use zs_calls::key_arg;
use zs_cell::{Books, Caller, Item, NotSubmitted, Session, SessionError};
use zs_declaring::{declare, subscriber};
use zs_events::Event;
use zs_handlers::Handler;
use zs_keys::KeyExpr;
use zs_sample::Locality;

/// A subscriber in the making. Contracts see its fields.
#[must_use = "nothing is declared before `wait`"]
#[derive(Drop)]
pub struct SubscriberBuilder<'a, H, B: Books> {
    session: &'a Session<H, B>,
    key: KeyExpr<'a>,
    origin: Locality,
    handler: Option<Arc<H>>,
}

impl<'a, H, B: Books> Model for SubscriberBuilder<'a, H, B> {
    ghost use Rattle.std.specs.Prelude.{option_map};
    ghost use Rattle.std.specs.Arc.{arc_value};
    ghost use Rattle.zs_entities.specs.Builders.{SubscriberMade};

    ghost Value = { SubscriberMade H };

    ghost view = { λ b. record { session = b.session.now; key = b.key; origin = b.origin; handler = option_map arc_value b.handler } };
}

impl<'a, H, B: Books> SubscriberBuilder<'a, H, B> {
    // A subscriber of which nothing else is said.
    pub(crate) fn of(session: &'a Session<H, B>, key: KeyExpr<'a>) -> SubscriberBuilder<'a, H, B>
        ensures { result ≡ new_subscriber session.now key.entry }
    {
        SubscriberBuilder {
            session,
            key,
            origin: Locality::Any,
            handler: None,
        }
    }

    /// Whose publications it is handed: by itself all.
    pub fn allowed_origin(mut self, origin: Locality) -> SubscriberBuilder<'a, H, B>
        ensures { result ≡ record self.entry { origin = origin } }
    {
        self.origin = origin;
        self
    }

    /// With that handler for what is published. Without one nobody is called.
    pub fn with(mut self, handler: Arc<H>) -> SubscriberBuilder<'a, H, B>
        requires { self.handler ≡ None }
        ensures { result ≡ record self.entry { handler = Some (arc_value handler) } }
    {
        match self.handler.replace(handler) {
            None => self,
            Some(_before) => unreachable!(),
        }
    }

    /// The same as what nobody holds: it lives until the session is closed.
    pub fn background(self) -> BackgroundBuilder<SubscriberBuilder<'a, H, B>>
        ensures { result ≡ self.entry }
    {
        BackgroundBuilder::of(self)
    }
}

impl<'a, H: Drop, B: Books> SubscriberBuilder<'a, H, B> {
    // The event that declares it.
    fn event(&self) -> Result<Event, AllocError>
        ensures event { IfOk result (λ event. event ≡ subscriber_event self.now) }
        ensures number { IfOk result (λ event. numbered_at event ≡ true) }
        ensures handler { IfOk result (λ event. takes_handler event ≡ true) }
    {
        let session = self.session;
        let key = key_arg(session.alloc(), session.tag(), &self.key)?;
        Ok(subscriber(self.origin, key))
    }

    // The subscriber, once it was declared under that number.
    fn into_subscriber(self, id: u32) -> Subscriber<'a, H, B>
        ensures { result ≡ record { session = self.entry.session; id = id; key = self.entry.key; liveliness = false } }
    {
        let SubscriberBuilder {
            session,
            key,
            origin: _,
            handler,
        } = self;
        drop(handler);
        Subscriber::of(session, id, key, false)
    }
}

impl<'a, H: Handler<Item> + Drop, B: Books> SubscriberBuilder<'a, H, B> {
    // Declares it: its number.
    fn declare<R: Wait>(&mut self, rt: &R, caller: &mut Caller<B>) -> Result<u32, NotSubmitted<H>>
        ensures ok { IfOk result (λ id. Accepts B.Entries.settings H.evicts caller.old caller.new (subscriber_event self.old) (is_some self.old.handler) (Some id)) }
        ensures err { IfErr result (λ back. Stops B.Entries.settings H.evicts caller.old caller.new (subscriber_event self.old) (is_some self.old.handler) back.why) }
        ensures handler { IfErr result (λ back. option_map arc_value back.handler ≡ self.old.handler) }
        ensures rest { self.new ≡ record self.old { handler = None } }
    {
        let session = self.session;
        let handler = self.handler.take();
        match self.event() {
            Ok(event) => declare(session, rt, event, handler, caller),
            Err(_) => Err(NotSubmitted {
                why: SessionError::NoMemory,
                handler,
            }),
        }
    }

    /// Declares it.
    ///
    /// # Errors
    ///
    /// `Refused`: `SessionClosedError` behind the close, `IdsExhausted` where no number of an entity is left. Else
    /// `NoMemory`: no event was taken. The handler comes back.
    pub fn wait<R: Wait>(
        mut self,
        rt: &R,
        caller: &mut Caller<B>,
    ) -> Result<Subscriber<'a, H, B>, NotSubmitted<H>>
        ensures ok { IfOk result (λ made. Accepts B.Entries.settings H.evicts caller.old caller.new (subscriber_event self.entry) (is_some self.entry.handler) (Some made.id)) }
        ensures made { IfOk result (λ made. made ≡ record { session = self.entry.session; id = made.id; key = self.entry.key; liveliness = false }) }
        ensures err { IfErr result (λ back. Stops B.Entries.settings H.evicts caller.old caller.new (subscriber_event self.entry) (is_some self.entry.handler) back.why) }
        ensures handler { IfErr result (λ back. option_map arc_value back.handler ≡ self.entry.handler) }
    {
        match self.declare(rt, caller) {
            Ok(id) => Ok(self.into_subscriber(id)),
            Err(back) => Err(back),
        }
    }
}

impl<'a, H: Handler<Item> + Drop, B: Books> BackgroundBuilder<SubscriberBuilder<'a, H, B>> {
    /// Declares the subscriber: its number.
    ///
    /// # Errors
    ///
    /// `Refused`: `SessionClosedError` behind the close, `IdsExhausted` where no number of an entity is left. Else
    /// `NoMemory`: no event was taken. The handler comes back.
    pub fn wait<R: Wait>(self, rt: &R, caller: &mut Caller<B>) -> Result<u32, NotSubmitted<H>>
        ensures ok { IfOk result (λ id. Accepts B.Entries.settings H.evicts caller.old caller.new (subscriber_event self.entry) (is_some self.entry.handler) (Some id)) }
        ensures err { IfErr result (λ back. Stops B.Entries.settings H.evicts caller.old caller.new (subscriber_event self.entry) (is_some self.entry.handler) back.why) }
        ensures handler { IfErr result (λ back. option_map arc_value back.handler ≡ self.entry.handler) }
    {
        let mut builder = self.into_builder();
        builder.declare(rt, caller)
    }
}
