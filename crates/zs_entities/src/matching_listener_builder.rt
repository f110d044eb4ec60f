//! Listeners to matching in the making.
ghost use Rattle.std.specs.Prelude.{◌≡◌, None, Some, option_map, is_some, IfOk, IfErr};
ghost use Rattle.std.specs.Arc.{arc_value};
ghost use Rattle.zs_cell.specs.Steps.{Accepts, Stops};
ghost use Rattle.zs_entities.specs.Builders.{new_listener, listener_event};

use crate::background::BackgroundBuilder;
use crate::matching_listener::MatchingListener;
use std::marker::Model;
use std::sync::{Arc, Wait};
use zs_cell::{Books, Caller, Item, NotSubmitted, Session};
use zs_declaring::{declare, listener};
use zs_events::ParentKind;
use zs_handlers::Handler;

/// A listener to the matching of a publisher or a querier in the making. Contracts see its fields.
#[must_use = "nothing is declared before `wait`"]
#[derive(Drop)]
pub struct MatchingListenerBuilder<'a, H, B: Books> {
    session: &'a Session<H, B>,
    parent: ParentKind,
    id: u32,
    handler: Option<Arc<H>>,
}

impl<'a, H, B: Books> Model for MatchingListenerBuilder<'a, H, B> {
    ghost use Rattle.std.specs.Prelude.{option_map};
    ghost use Rattle.std.specs.Arc.{arc_value};
    ghost use Rattle.zs_entities.specs.Builders.{MatchingListenerMade};

    ghost Value = { MatchingListenerMade H };

    ghost view = { λ b. record { session = b.session.now; parent = b.parent; id = b.id; handler = option_map arc_value b.handler } };
}

impl<'a, H, B: Books> MatchingListenerBuilder<'a, H, B> {
    // A listener of which nothing else is said.
    pub(crate) fn of(
        session: &'a Session<H, B>,
        parent: ParentKind,
        id: u32,
    ) -> MatchingListenerBuilder<'a, H, B>
        ensures { result ≡ new_listener session.now parent id }
    {
        MatchingListenerBuilder {
            session,
            parent,
            id,
            handler: None,
        }
    }

    /// With that handler for the changes. Without one nobody is called.
    pub fn with(mut self, handler: Arc<H>) -> MatchingListenerBuilder<'a, H, B>
        requires { self.handler ≡ None }
        ensures { result ≡ record self.entry { handler = Some (arc_value handler) } }
    {
        match self.handler.replace(handler) {
            None => self,
            Some(_before) => unreachable!(),
        }
    }

    /// The same as what nobody holds: it lives until its publisher or querier ends or the session is closed.
    pub fn background(self) -> BackgroundBuilder<MatchingListenerBuilder<'a, H, B>>
        ensures { result ≡ self.entry }
    {
        BackgroundBuilder::of(self)
    }
}

impl<'a, H: Handler<Item> + Drop, B: Books> MatchingListenerBuilder<'a, H, B> {
    // Declares it: its number.
    fn declare<R: Wait>(&mut self, rt: &R, caller: &mut Caller<B>) -> Result<u32, NotSubmitted<H>>
        ensures ok { IfOk result (λ id. Accepts B.Entries.settings H.evicts caller.old caller.new (listener_event self.old) (is_some self.old.handler) (Some id)) }
        ensures err { IfErr result (λ back. Stops B.Entries.settings H.evicts caller.old caller.new (listener_event self.old) (is_some self.old.handler) back.why) }
        ensures handler { IfErr result (λ back. option_map arc_value back.handler ≡ self.old.handler) }
        ensures rest { self.new ≡ record self.old { handler = None } }
    {
        let session = self.session;
        let handler = self.handler.take();
        let event = listener(self.parent, self.id);
        declare(session, rt, event, handler, caller)
    }

    /// Declares it.
    ///
    /// # Errors
    ///
    /// `Refused`: `SessionClosedError` behind the close, `NotFound` where its publisher or querier has ended,
    /// `IdsExhausted` where no number of an entity is left. Else `NoMemory`: no event was taken. The handler comes
    /// back.
    pub fn wait<R: Wait>(
        mut self,
        rt: &R,
        caller: &mut Caller<B>,
    ) -> Result<MatchingListener<'a, H, B>, NotSubmitted<H>>
        ensures ok { IfOk result (λ made. Accepts B.Entries.settings H.evicts caller.old caller.new (listener_event self.entry) (is_some self.entry.handler) (Some made.id)) }
        ensures session { IfOk result (λ made. made.session ≡ self.entry.session) }
        ensures err { IfErr result (λ back. Stops B.Entries.settings H.evicts caller.old caller.new (listener_event self.entry) (is_some self.entry.handler) back.why) }
        ensures handler { IfErr result (λ back. option_map arc_value back.handler ≡ self.entry.handler) }
    {
        let session = self.session;
        match self.declare(rt, caller) {
            Ok(id) => Ok(MatchingListener::of(session, id)),
            Err(back) => Err(back),
        }
    }
}

impl<'a, H: Handler<Item> + Drop, B: Books> BackgroundBuilder<MatchingListenerBuilder<'a, H, B>> {
    /// Declares the listener: its number.
    ///
    /// # Errors
    ///
    /// `Refused`: `SessionClosedError` behind the close, `NotFound` where its publisher or querier has ended,
    /// `IdsExhausted` where no number of an entity is left. Else `NoMemory`: no event was taken. The handler comes
    /// back.
    pub fn wait<R: Wait>(self, rt: &R, caller: &mut Caller<B>) -> Result<u32, NotSubmitted<H>>
        ensures ok { IfOk result (λ id. Accepts B.Entries.settings H.evicts caller.old caller.new (listener_event self.entry) (is_some self.entry.handler) (Some id)) }
        ensures err { IfErr result (λ back. Stops B.Entries.settings H.evicts caller.old caller.new (listener_event self.entry) (is_some self.entry.handler) back.why) }
        ensures handler { IfErr result (λ back. option_map arc_value back.handler ≡ self.entry.handler) }
    {
        let mut builder = self.into_builder();
        builder.declare(rt, caller)
    }
}
