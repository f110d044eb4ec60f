//! One event, taken into a session that is held.
ghost use Rattle.std.specs.Prelude.{◌≡◌, None, Some, true, false, not, is_some, option_map, map, IfOk, IfErr, OnErr, OnOk, if◌then◌else◌};
ghost use Rattle.std.specs.Arc.{arc_value};
ghost use Rattle.zs_turns.specs.Gates.{takes_handler};
ghost use Rattle.zs_events.specs.Turn.{was_refused};
ghost use Rattle.zs_posts.specs.Calls.{call_seen, all_lents};
ghost use Rattle.zs_hands.specs.Answers.{AreOfRoom};
ghost use Rattle.zs_cell.specs.Further.{Adds};
ghost use Rattle.zs_cell.specs.Steps.{Takes, IsNumbered, asked_for};
ghost use Rattle.zs_cell.specs.Works.{asked_at, back_at};

use crate::work::Work;
use std::sync::Arc;
use zs_books::Books;
use zs_events::Event;
use zs_gate::NoPass;
use zs_hands::Closing;
use zs_held::{Held, Receipt, numbers_are_told};
use zs_posts::Key;
use zs_session_cell::{Handing, NotTaken};
use zs_shared::Shared;

type Caller<B> = zs_books::Caller<B, Receipt<B>>;

/// Why an event wasn't taken, with the handler that came with it.
pub(crate) struct NotNow<H> {
    pub(crate) why: NoPass,
    pub(crate) handler: Option<Arc<H>>,
}

// The same of an event that goes.
#[tactic(none)]
fn not_now<H>(refused: NotTaken<H>) -> NotNow<H>
    ensures { result.handler ≡ refused.handler }
{
    let NotTaken {
        why,
        event,
        handler,
    } = refused;
    drop(event);
    NotNow { why, handler }
}

// Gives out the gate of a key, where the event was taken and accepted, and says so in its receipt.
fn drain_if<H: Drop, B: Books>(
    held: &mut Held<H, B>,
    accepted: bool,
    key: Option<Key>,
    receipt: &mut Receipt<B>,
) -> Option<Closing<H>>
    requires { receipt.old.asked ≡ None }
    ensures none { key ≡ None → result ≡ None }
    ensures refused { accepted ≡ false → result ≡ None }
    ensures asked { receipt.new ≡ record receipt.old { asked = asked_at accepted key (is_some result) receipt.old.asked } }
    ensures room { held.new.session.exchange.posts.room ≡ held.old.session.exchange.posts.room }
{
    match key {
        Some(key) => {
            if accepted {
                held.drain_for(key, receipt)
            } else {
                None
            }
        }
        None => None,
    }
}

// What is to be done of an event, with the gate of a key, if the event was accepted.
#[tactic(none)]
fn work_of<H: Drop, D: Drop, B: Books>(
    held: &mut Held<H, B>,
    handing: Handing<H, D>,
    key: Option<Key>,
    receipt: &mut Receipt<B>,
) -> Work<H, D>
    requires { receipt.old.asked ≡ None }
    ensures answer { result.answer ≡ handing.turn.answer }
    ensures back { result.back ≡ handing.back }
    ensures lents { result.lents ≡ all_lents (map call_seen handing.calls) }
    ensures none { key ≡ None → result.waits ≡ false }
    ensures refused { was_refused handing.turn.answer ≡ true → result.waits ≡ false }
    ensures asked { receipt.new ≡ record receipt.old { asked = asked_at (not (was_refused handing.turn.answer)) key result.waits receipt.old.asked } }
    ensures room { held.new.session.exchange.posts.room ≡ held.old.session.exchange.posts.room }
{
    let accepted = !handing.turn().is_refused();
    let closing = drain_if(held, accepted, key, receipt);
    Work::of(handing, closing)
}

// Keeps the receipt of an event that was taken: what is to be done of it, with the gate of a key, if it was accepted.
#[tactic(none)]
fn receive<H: Drop, D: Drop, B: Books>(
    held: &mut Held<H, B>,
    given: (Handing<H, D>, Receipt<B>),
    key: Option<Key>,
    caller: &mut Caller<B>,
) -> Work<H, D>
    requires { given.1.asked ≡ None }
    ensures answer { result.answer ≡ given.0.turn.answer }
    ensures back { result.back ≡ given.0.back }
    ensures lents { result.lents ≡ all_lents (map call_seen given.0.calls) }
    ensures none { key ≡ None → result.waits ≡ false }
    ensures refused { was_refused given.0.turn.answer ≡ true → result.waits ≡ false }
    ensures room { held.new.session.exchange.posts.room ≡ held.old.session.exchange.posts.room }
    ensures caller { caller.new ≡ record caller.old { last = Some (record given.1 { asked = asked_at (not (was_refused given.0.turn.answer)) key result.waits given.1.asked }) } }
{
    let (handing, mut receipt) = given;
    let work = work_of(held, handing, key, &mut receipt);
    caller.keep(receipt);
    work
}

/// Takes an event, with the receipt for the caller, and gives out the gate of a key, if the event is accepted.
#[tactic(none)]
pub(crate) fn take_held<H: Drop, D: Drop, B: Books>(
    held: &mut Held<H, B>,
    event: Shared<Event>,
    handler: Option<Arc<H>>,
    key: Option<Key>,
    caller: &mut Caller<B>,
) -> Result<Work<H, D>, NotNow<H>>
    requires { is_some handler ≡ true → takes_handler event ≡ true }
    ensures ok { IfOk result (λ work. Takes B.Entries.settings caller.old event (is_some handler) work.answer (asked_for work.answer key work.waits) caller.new) }
    ensures numbered { IfOk result (λ work. IsNumbered event work.answer) }
    ensures back { IfOk result (λ work. work.back ≡ back_at work.answer (option_map arc_value handler)) }
    ensures lents { IfOk result (λ work. AreOfRoom held.old.session.exchange.posts.room work.lents) }
    ensures none { key ≡ None → IfOk result (λ work. work.waits ≡ false) }
    ensures closing { IfOk result (λ work. was_refused work.answer ≡ true → work.waits ≡ false) }
    ensures room { held.new.session.exchange.posts.room ≡ held.old.session.exchange.posts.room }
    ensures handler { IfErr result (λ refused. refused.handler ≡ handler) }
    ensures err { OnErr result (caller.new ≡ caller.old) }
{
    numbers_are_told();
    match held.take(event, handler, caller) {
        Ok(given) => {
            let _ = held.journal();
            Ok(receive(held, given, key, caller))
        }
        Err(refused) => Err(not_now(refused)),
    }
}

// What is to be done of an event whose receipt goes.
#[tactic(none)]
fn without_receipt<H: Drop, D: Drop, B: Books>(given: (Handing<H, D>, Receipt<B>)) -> Work<H, D>
    ensures lents { result.lents ≡ all_lents (map call_seen given.0.calls) }
    ensures waits { result.waits ≡ false }
{
    let (handing, receipt) = given;
    drop(receipt);
    Work::of(handing, None)
}

// Why an event without a handler wasn't taken.
#[tactic(none)]
fn why_not<H: Drop>(refused: NotTaken<H>) -> NoPass {
    let NotTaken {
        why,
        event,
        handler,
    } = refused;
    drop(event);
    drop(handler);
    why
}

/// Takes one event more, without a handler. The caller counts it, and keeps the receipt that it has.
#[tactic(none)]
pub(crate) fn take_more<H: Drop, D: Drop, B: Books>(
    held: &mut Held<H, B>,
    event: Shared<Event>,
    caller: &mut Caller<B>,
) -> Result<Work<H, D>, NoPass>
    ensures ok { OnOk result (Adds B.Entries.settings event caller.old caller.new) }
    ensures lents { IfOk result (λ work. AreOfRoom held.old.session.exchange.posts.room work.lents) }
    ensures waits { IfOk result (λ work. work.waits ≡ false) }
    ensures room { held.new.session.exchange.posts.room ≡ held.old.session.exchange.posts.room }
    ensures err { OnErr result (caller.new ≡ caller.old) }
{
    match held.take(event, None, caller) {
        Ok(given) => {
            let _ = held.journal();
            Ok(without_receipt(given))
        }
        Err(refused) => Err(why_not(refused)),
    }
}
