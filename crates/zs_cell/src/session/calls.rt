//! What callers ask of a session.
ghost use Rattle.std.specs.Prelude.{◌≡◌, None, Some, option_map, is_some, true, false, IfOk, IfErr, OnOk};
ghost use Rattle.std.specs.Arc.{arc_value};
ghost use Rattle.zs_events.specs.declared.event.Event.TheVariants.{Tick, Net, Close, CancelToken};
ghost use Rattle.zs_posts.specs.declared.key.Key.{Key};
ghost use Rattle.zs_turns.specs.Gates.{takes_handler};
ghost use Rattle.zs_held.specs.Numbers.{numbered_at};
ghost use Rattle.zs_cell.specs.Steps.{Accepts, AcceptsAsking, AcceptsFor, Stops};

use crate::error::{NotSubmitted, SessionError};
use crate::session::Session;
use crate::session::stepping::Stepped;
use crate::token::SessionToken;
use std::sync::{Arc, Wait};
use zs_books::Books;
use zs_events::Event;
use zs_handlers::Handler;
use zs_hands::Closing;
use zs_held::Receipt;
use zs_posts::Key;
use zs_shared::Shared;
use zs_turns::Item;
use zs_wire::Message;

type Caller<B> = zs_books::Caller<B, Receipt<B>>;

impl<H: Handler<Item> + Drop, B: Books> Session<H, B> {
    /// Steps the session by an event, with the handler of what it declares or asks: the number that it is answered, if it is
    /// answered one. The other calls step by this one.
    ///
    /// The event is taken in one hold of the session's lock. Then its handlers are called outside of the lock, each inside of
    /// its gates, and those that have ended are told. While some gate has too few passes left, the call tries again.
    ///
    /// # Errors
    ///
    /// `Refused`: any `Refusal` that the event has cause for, of several the one that `Refusal` names first. Else
    /// `NoMemory`: no event was taken. The handler comes back.
    pub fn submit<R: Wait>(
        &self,
        rt: &R,
        event: Event,
        handler: Option<Arc<H>>,
        caller: &mut Caller<B>,
    ) -> Result<Option<u32>, NotSubmitted<H>>
        requires { is_some handler ≡ true → takes_handler event ≡ true }
        ensures ok { IfOk result (λ number. Accepts B.Entries.settings H.evicts caller.old caller.new event (is_some handler) number) }
        ensures numbered { IfOk result (λ number. is_some number ≡ numbered_at event) }
        ensures err { IfErr result (λ back. Stops B.Entries.settings H.evicts caller.old caller.new event (is_some handler) back.why) }
        ensures handler { IfErr result (λ back. option_map arc_value back.handler ≡ option_map arc_value handler) }
    {
        match self.step(rt, event, handler, None, caller) {
            Ok(stepped) => {
                let Stepped { number, closing } = stepped;
                let None = closing else { unreachable!() };
                Ok(number)
            }
            Err(back) => Err(back),
        }
    }

    // Steps the session by an event that is answered no number, and marks the gate of a key in the same hold of the lock, where
    // the event is accepted: the gate, if the session still held it.
    pub(crate) fn tell_and_drain<R: Wait>(
        &self,
        rt: &R,
        event: Event,
        key: Option<Key>,
        caller: &mut Caller<B>,
    ) -> Result<Option<Closing<H>>, SessionError>
        requires { numbered_at event ≡ false }
        ensures ok { IfOk result (λ closing. AcceptsFor B.Entries.settings H.evicts caller.old caller.new event false None key (is_some closing)) }
        ensures err { IfErr result (λ why. Stops B.Entries.settings H.evicts caller.old caller.new event false why) }
    {
        match self.step(rt, event, None, key, caller) {
            Ok(stepped) => {
                let Stepped { number, closing } = stepped;
                let None = number else { unreachable!() };
                Ok(closing)
            }
            Err(back) => {
                let NotSubmitted { why, handler } = back;
                drop(handler);
                Err(why)
            }
        }
    }

    /// Steps the session by an event that is answered no number.
    ///
    /// # Errors
    ///
    /// `Refused`: as `submit` has it, but never `QueryCancelled`. Else `NoMemory`: no event was taken.
    pub fn tell<R: Wait>(
        &self,
        rt: &R,
        event: Event,
        caller: &mut Caller<B>,
    ) -> Result<(), SessionError>
        requires { numbered_at event ≡ false }
        ensures ok { OnOk result (Accepts B.Entries.settings H.evicts caller.old caller.new event false None) }
        ensures err { IfErr result (λ why. Stops B.Entries.settings H.evicts caller.old caller.new event false why) }
    {
        match self.submit(rt, event, None, caller) {
            Ok(number) => {
                let None = number else { unreachable!() };
                Ok(())
            }
            Err(back) => {
                let NotSubmitted { why, handler } = back;
                drop(handler);
                Err(why)
            }
        }
    }

    /// Steps the session by an event that is answered a number.
    ///
    /// # Errors
    ///
    /// `Refused`: `SessionClosedError` behind the close, `NotFound` where what the event names isn't there,
    /// `BadKeyExpr` where its key is no canonical key expression, `QueryCancelled` where its cancellation token was
    /// cancelled, `IdsExhausted` where too few numbers are left. Else `NoMemory`: no event was taken. The handler comes
    /// back.
    pub fn ask<R: Wait>(
        &self,
        rt: &R,
        event: Event,
        handler: Option<Arc<H>>,
        caller: &mut Caller<B>,
    ) -> Result<u32, NotSubmitted<H>>
        requires handler { is_some handler ≡ true → takes_handler event ≡ true }
        requires number { numbered_at event ≡ true }
        ensures ok { IfOk result (λ number. Accepts B.Entries.settings H.evicts caller.old caller.new event (is_some handler) (Some number)) }
        ensures err { IfErr result (λ back. Stops B.Entries.settings H.evicts caller.old caller.new event (is_some handler) back.why) }
        ensures handler { IfErr result (λ back. option_map arc_value back.handler ≡ option_map arc_value handler) }
    {
        match self.submit(rt, event, handler, caller) {
            Ok(number) => {
                let Some(number) = number else { unreachable!() };
                Ok(number)
            }
            Err(back) => Err(back),
        }
    }

    // Steps the session by an event that is answered a number, without a handler.
    pub(crate) fn ask_alone<R: Wait>(
        &self,
        rt: &R,
        event: Event,
        caller: &mut Caller<B>,
    ) -> Result<u32, SessionError>
        requires { numbered_at event ≡ true }
        ensures ok { IfOk result (λ number. Accepts B.Entries.settings H.evicts caller.old caller.new event false (Some number)) }
        ensures err { IfErr result (λ why. Stops B.Entries.settings H.evicts caller.old caller.new event false why) }
    {
        match self.ask(rt, event, None, caller) {
            Ok(number) => Ok(number),
            Err(back) => {
                let NotSubmitted { why, handler } = back;
                drop(handler);
                Err(why)
            }
        }
    }

    // Waits until no one is inside of a gate, and tells its handler, if it is a handler's.
    pub(crate) fn wait_for<R: Wait>(&self, rt: &R, closing: Option<Closing<H>>) {
        match closing {
            Some(closing) => {
                let (drained, done) = closing.wait(rt).tell(rt);
                drop(drained);
                drop(done);
            }
            None => {}
        }
    }

    // Steps the session by an event that is answered no number, and waits for the gate of a key, where the event is accepted and
    // the session still held the gate.
    pub(crate) fn tell_and_wait<R: Wait>(
        &self,
        rt: &R,
        event: Event,
        key: Key,
        caller: &mut Caller<B>,
    ) -> Result<(), SessionError>
        requires { numbered_at event ≡ false }
        ensures ok { OnOk result (AcceptsAsking B.Entries.settings H.evicts caller.old caller.new event key) }
        ensures err { IfErr result (λ why. Stops B.Entries.settings H.evicts caller.old caller.new event false why) }
    {
        match self.tell_and_drain(rt, event, Some(key), caller) {
            Ok(closing) => {
                self.wait_for(rt, closing);
                Ok(())
            }
            Err(why) => Err(why),
        }
    }

    /// Tells the session that a moment has come, in milliseconds from a beginning of the callers' choice.
    ///
    /// # Errors
    ///
    /// `NoMemory` alone: no event was taken. No moment is refused, not even behind the close.
    pub fn tick<R: Wait>(
        &self,
        rt: &R,
        now: u64,
        caller: &mut Caller<B>,
    ) -> Result<(), SessionError>
        ensures ok { OnOk result (Accepts B.Entries.settings H.evicts caller.old caller.new (Tick now) false None) }
        ensures err { IfErr result (λ why. Stops B.Entries.settings H.evicts caller.old caller.new (Tick now) false why) }
    {
        self.tell(rt, Event::Tick { now }, caller)
    }

    /// Hands the session a message that came in from the network.
    ///
    /// # Errors
    ///
    /// `Refused`: `UnknownScope` where a key that is looked at has a number that stands for nothing, or the message
    /// would tell what number 0 stands for; `BadKeyExpr` where such a key is no canonical key expression;
    /// `IdsExhausted` where a request meets more queryables than there are numbers of queries left; `Ignored` where the
    /// message means nothing here, as all do behind the close. Else `NoMemory`: no event was taken.
    pub fn recv<R: Wait>(
        &self,
        rt: &R,
        message: Message,
        caller: &mut Caller<B>,
    ) -> Result<(), SessionError>
        ensures ok { OnOk result (Accepts B.Entries.settings H.evicts caller.old caller.new (Net message) false None) }
        ensures err { IfErr result (λ why. Stops B.Entries.settings H.evicts caller.old caller.new (Net message) false why) }
    {
        let Ok(message) = Shared::new(self.alloc(), message) else {
            return Err(SessionError::NoMemory);
        };
        self.tell(rt, Event::Net(message), caller)
    }

    /// Closes the session. With the flag it also waits until no handler's callback is under way, the first time that such a
    /// close is accepted; it never returns to whoever is inside of a callback.
    ///
    /// # Errors
    ///
    /// `NoMemory` alone: no event was taken. No close is refused, not even behind another one.
    pub fn close<R: Wait>(
        &self,
        rt: &R,
        wait_callbacks: bool,
        caller: &mut Caller<B>,
    ) -> Result<(), SessionError>
        ensures waits { wait_callbacks ≡ true → OnOk result (AcceptsAsking B.Entries.settings H.evicts caller.old caller.new Close Key.Session) }
        ensures at_once { wait_callbacks ≡ false → OnOk result (Accepts B.Entries.settings H.evicts caller.old caller.new Close false None) }
        ensures err { IfErr result (λ why. Stops B.Entries.settings H.evicts caller.old caller.new Close false why) }
    {
        if wait_callbacks {
            self.tell_and_wait(rt, Event::Close, Key::Session, caller)
        } else {
            self.tell(rt, Event::Close, caller)
        }
    }

    /// Declares a cancellation token, by which gets can be cancelled that are given it.
    ///
    /// # Errors
    ///
    /// `Refused`: `SessionClosedError` behind the close, `IdsExhausted` where no number of a token is left. Else
    /// `NoMemory`: no event was taken.
    pub fn cancellation_token<R: Wait>(
        &self,
        rt: &R,
        caller: &mut Caller<B>,
    ) -> Result<SessionToken<H, B>, SessionError>
        ensures ok { IfOk result (λ token. Accepts B.Entries.settings H.evicts caller.old caller.new CancelToken false (Some token.number)) }
        ensures session { IfOk result (λ token. token.session ≡ self.now) }
        ensures err { IfErr result (λ why. Stops B.Entries.settings H.evicts caller.old caller.new CancelToken false why) }
    {
        let Ok(session) = self.try_clone() else {
            return Err(SessionError::NoMemory);
        };
        match self.ask_alone(rt, Event::CancelToken, caller) {
            Ok(number) => Ok(SessionToken::of(session, number)),
            Err(why) => {
                drop(session);
                Err(why)
            }
        }
    }
}
