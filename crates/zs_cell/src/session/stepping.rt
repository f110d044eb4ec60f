//! One event of a session, from its turn to the last call that the turn asks for.
ghost use Rattle.std.specs.Prelude.{◌≡◌, None, true, false, is_some, option_map, IfOk, IfErr, OnErr};
ghost use Rattle.std.specs.Arc.{arc_value};
ghost use Rattle.zs_turns.specs.Gates.{takes_handler};
ghost use Rattle.zs_hands.specs.Answers.{AreOfRoom};
ghost use Rattle.zs_held.specs.Numbers.{numbered_at};
ghost use Rattle.zs_cell.specs.Further.{AddsSome};
ghost use Rattle.zs_cell.specs.Steps.{Takes, AcceptsFor, Stops, IsNumbered, IsRefusal, asked_for};
ghost use Rattle.zs_cell.specs.Works.{back_at};
ghost use Rattle.zs_events.specs.Turn.{was_refused};
ghost use Rattle.zs_events.specs.declared.turn.Answer.TheVariants.{Ok as accepted};

use crate::ending::{AllTold, next_ending};
use crate::error::{NotSubmitted, SessionError};
use crate::reports::Reports;
use crate::requests::asks_queryables;
use crate::session::Session;
use crate::taking::{NotNow, take_held};
use crate::work::{Work, Worked};
use std::sync::{Arc, Wait};
use zs_books::Books;
use zs_events::{Answer, Event};
use zs_gate::NoPass;
use zs_handlers::Handler;
use zs_hands::Closing;
use zs_held::Receipt;
use zs_posts::Key;
use zs_shared::Shared;
use zs_turns::Item;

type Caller<B> = zs_books::Caller<B, Receipt<B>>;

/// What an accepted event was answered, and a gate that is waited for.
pub(crate) struct Stepped<H> {
    pub(crate) number: Option<u32>,
    pub(crate) closing: Option<Closing<H>>,
}

impl<H: Handler<Item> + Drop, B: Books> Session<H, B> {
    // Takes an event in one hold of the lock, with the receipt for the caller, and gives out the gate of a key, if the event is
    // accepted.
    #[tactic(none)]
    fn take_once<R: Wait>(
        &self,
        rt: &R,
        event: &Shared<Event>,
        handler: Option<Arc<H>>,
        key: Option<Key>,
        caller: &mut Caller<B>,
    ) -> Result<Work<H, H::Done>, NotNow<H>>
        requires { is_some handler ≡ true → takes_handler event.now ≡ true }
        ensures ok { IfOk result (λ work. Takes B.Entries.settings caller.old event.now (is_some handler) work.answer (asked_for work.answer key work.waits) caller.new) }
        ensures numbered { IfOk result (λ work. IsNumbered event.now work.answer) }
        ensures back { IfOk result (λ work. work.back ≡ back_at work.answer (option_map arc_value handler)) }
        ensures lents { IfOk result (λ work. AreOfRoom self.now.lock.key work.lents) }
        ensures none { key ≡ None → IfOk result (λ work. work.waits ≡ false) }
        ensures closing { IfOk result (λ work. was_refused work.answer ≡ true → work.waits ≡ false) }
        ensures handler { IfErr result (λ refused. refused.handler ≡ handler) }
        ensures err { OnErr result (caller.new ≡ caller.old) }
    {
        let Ok(copy) = event.try_clone() else {
            return Err(NotNow {
                why: NoPass::NoMemory,
                handler,
            });
        };
        let (mut held, taken) = self.shared.lock.take(rt);
        let taking = take_held(&mut held, copy, handler, key, caller);
        taken.put(held);
        taking
    }

    // Takes an event, as soon as each gate has the passes that its calls need. Want of memory gives the handler back.
    fn take<R: Wait>(
        &self,
        rt: &R,
        event: &Shared<Event>,
        handler: Option<Arc<H>>,
        key: Option<Key>,
        caller: &mut Caller<B>,
    ) -> Result<Work<H, H::Done>, Option<Arc<H>>>
        requires { is_some handler ≡ true → takes_handler event.now ≡ true }
        ensures ok { IfOk result (λ work. Takes B.Entries.settings caller.old event.now (is_some handler) work.answer (asked_for work.answer key work.waits) caller.new) }
        ensures numbered { IfOk result (λ work. IsNumbered event.now work.answer) }
        ensures back { IfOk result (λ work. work.back ≡ back_at work.answer (option_map arc_value handler)) }
        ensures lents { IfOk result (λ work. AreOfRoom self.now.lock.key work.lents) }
        ensures none { key ≡ None → IfOk result (λ work. work.waits ≡ false) }
        ensures closing { IfOk result (λ work. was_refused work.answer ≡ true → work.waits ≡ false) }
        ensures handler { IfErr result (λ back. back ≡ handler) }
        ensures err { OnErr result (caller.new ≡ caller.old) }
    {
        let mut handler = handler;
        for _ in rt.forever() {
            match self.take_once(rt, event, handler, key, caller) {
                Ok(work) => return Ok(work),
                Err(refused) => {
                    let NotNow { why, handler: back } = refused;
                    match why {
                        NoPass::NoMemory => return Err(back),
                        NoPass::Full => handler = back,
                    }
                }
            }
        }
        unreachable!()
    }

    // Gives out one gate that was ended, and tells its handler outside of the lock. Whether there was none left.
    fn end_one<R: Wait>(&self, rt: &R) -> Option<AllTold> {
        let (mut held, taken) = self.shared.lock.take(rt);
        let next = next_ending(&mut held);
        taken.put(held);
        match next {
            Ok(ending) => {
                let (drained, done) = ending.tell(rt);
                drop(drained);
                drop(done);
                None
            }
            Err(told) => Some(told),
        }
    }

    // Tells all handlers that have ended so far.
    fn end_all<R: Wait>(&self, rt: &R) -> AllTold {
        for _ in rt.forever() {
            if let Some(told) = self.end_one(rt) {
                return told;
            }
        }
        unreachable!()
    }

    // Gives the passes of calls that were made outside of the lock back in another hold of it, and tells the handlers that have
    // ended: what became of each item.
    #[tactic(none)]
    pub(crate) fn settle<R: Wait>(
        &self,
        rt: &R,
        worked: Worked<H::Done>,
    ) -> (Reports<H::Done>, AllTold)
        requires { AreOfRoom self.now.lock.key worked.lents }
        ensures { result.0 ≡ worked.reports }
    {
        let (mut held, taken) = self.shared.lock.take(rt);
        let reports = worked.give_back(&mut held);
        taken.put(held);
        let told = self.end_all(rt);
        (reports, told)
    }

    // Makes the calls of an event that was taken, and gives the queries back that came back: what the event was answered.
    fn answer<R: Wait>(
        &self,
        rt: &R,
        work: Work<H, H::Done>,
        asks: bool,
        caller: &mut Caller<B>,
    ) -> Result<Stepped<H>, NotSubmitted<H>>
        requires lents { AreOfRoom self.now.lock.key work.lents }
        requires closing { was_refused work.answer ≡ true → work.waits ≡ false }
        ensures number { IfOk result (λ stepped. work.answer ≡ accepted stepped.number) }
        ensures closing { IfOk result (λ stepped. is_some stepped.closing ≡ work.waits) }
        ensures gate { IfOk result (λ stepped. option_map (λ c. c.draining.gate) stepped.closing ≡ work.gate) }
        ensures refusal { IfErr result (λ back. IsRefusal work.answer back.why) }
        ensures handler { IfErr result (λ back. option_map arc_value back.handler ≡ work.back) }
        ensures further { AddsSome B.Entries.settings caller.old caller.new }
        ensures kept { H.evicts ≡ false → asks ≡ false → caller.new ≡ caller.old }
    {
        let mut work = work;
        let answer = work.answer();
        let handler = work.refused();
        let (worked, closing) = work.run(rt);
        let (reports, told) = self.settle(rt, worked);
        self.give_up(rt, asks, reports, told, caller);
        match answer {
            Answer::Ok(number) => {
                drop(handler);
                Ok(Stepped { number, closing })
            }
            Answer::Refused(refusal) => {
                let None = closing else { unreachable!() };
                let why = SessionError::Refused(refusal);
                Err(NotSubmitted { why, handler })
            }
        }
    }

    // Steps the session by an event in its place in memory.
    fn step_shared<R: Wait>(
        &self,
        rt: &R,
        event: &Shared<Event>,
        handler: Option<Arc<H>>,
        key: Option<Key>,
        caller: &mut Caller<B>,
    ) -> Result<Stepped<H>, NotSubmitted<H>>
        requires { is_some handler ≡ true → takes_handler event.now ≡ true }
        ensures ok { IfOk result (λ stepped. AcceptsFor B.Entries.settings H.evicts caller.old caller.new event.now (is_some handler) stepped.number key (is_some stepped.closing)) }
        ensures numbered { IfOk result (λ stepped. is_some stepped.number ≡ numbered_at event.now) }
        ensures none { key ≡ None → IfOk result (λ stepped. stepped.closing ≡ None) }
        ensures err { IfErr result (λ back. Stops B.Entries.settings H.evicts caller.old caller.new event.now (is_some handler) back.why) }
        ensures handler { IfErr result (λ back. option_map arc_value back.handler ≡ option_map arc_value handler) }
    {
        let asks = asks_queryables(event.get());
        match self.take(rt, event, handler, key, caller) {
            Ok(work) => self.answer(rt, work, asks, caller),
            Err(handler) => Err(NotSubmitted {
                why: SessionError::NoMemory,
                handler,
            }),
        }
    }

    // Steps the session by an event: the answer, once its calls were made. Where it is accepted, the gate of the key is marked in
    // the same hold of the lock.
    pub(crate) fn step<R: Wait>(
        &self,
        rt: &R,
        event: Event,
        handler: Option<Arc<H>>,
        key: Option<Key>,
        caller: &mut Caller<B>,
    ) -> Result<Stepped<H>, NotSubmitted<H>>
        requires { is_some handler ≡ true → takes_handler event ≡ true }
        ensures ok { IfOk result (λ stepped. AcceptsFor B.Entries.settings H.evicts caller.old caller.new event (is_some handler) stepped.number key (is_some stepped.closing)) }
        ensures numbered { IfOk result (λ stepped. is_some stepped.number ≡ numbered_at event) }
        ensures none { key ≡ None → IfOk result (λ stepped. stepped.closing ≡ None) }
        ensures err { IfErr result (λ back. Stops B.Entries.settings H.evicts caller.old caller.new event (is_some handler) back.why) }
        ensures handler { IfErr result (λ back. option_map arc_value back.handler ≡ option_map arc_value handler) }
    {
        let Ok(event) = Shared::new(self.shared.alloc, event) else {
            return Err(NotSubmitted {
                why: SessionError::NoMemory,
                handler,
            });
        };
        let stepping = self.step_shared(rt, &event, handler, key, caller);
        drop(event);
        stepping
    }
}
