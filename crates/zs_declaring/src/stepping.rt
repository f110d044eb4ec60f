//! How a session is stepped by such events.
ghost use Rattle.std.specs.Prelude.{◌≡◌, None, Some, option_map, is_some, true, false, IfOk, IfErr, OnOk};
ghost use Rattle.std.specs.Arc.{arc_value};
ghost use Rattle.zs_events.specs.declared.event.Event.TheVariants.{Status, Undeclare, Background};
ghost use Rattle.zs_turns.specs.Gates.{takes_handler};
ghost use Rattle.zs_held.specs.Numbers.{numbered_at};
ghost use Rattle.zs_cell.specs.Steps.{Accepts, AcceptsFor, Stops};
ghost use Rattle.zs_declaring.specs.Statuses.{Tells};
ghost use Rattle.zs_declaring.specs.Waits.{waited_key};

use crate::events::{background, matching_status, undeclaration};
use std::sync::{Arc, Wait};
use zs_cell::{Books, Caller, Closing, Drained, Item, NotSubmitted, Session, SessionError};
use zs_events::{BackgroundKind, EntityKind, Event, ParentKind};
use zs_handlers::Handler;
use zs_sample::MatchingStatus;

/// Declares what may come with a handler: its number.
///
/// # Errors
///
/// `Refused`: `SessionClosedError` behind the close, `NotFound` where what the event names isn't there, `BadKeyExpr`
/// where its key is no canonical key expression, `QueryCancelled` where its cancellation token was cancelled,
/// `IdsExhausted` where too few numbers are left. Else `NoMemory`: no event was taken. The handler comes back.
pub fn declare<H: Handler<Item> + Drop, B: Books, R: Wait>(
    session: &Session<H, B>,
    rt: &R,
    event: Event,
    handler: Option<Arc<H>>,
    caller: &mut Caller<B>,
) -> Result<u32, NotSubmitted<H>>
    requires handler { takes_handler event ≡ true }
    requires number { numbered_at event ≡ true }
    ensures ok { IfOk result (λ id. Accepts B.Entries.settings H.evicts caller.old caller.new event (is_some (option_map arc_value handler)) (Some id)) }
    ensures err { IfErr result (λ back. Stops B.Entries.settings H.evicts caller.old caller.new event (is_some (option_map arc_value handler)) back.why) }
    ensures handler { IfErr result (λ back. option_map arc_value back.handler ≡ option_map arc_value handler) }
{
    match handler {
        Some(handler) => session.ask(rt, event, Some(handler), caller),
        None => session.ask(rt, event, None, caller),
    }
}

/// Declares what has no handler: its number.
///
/// # Errors
///
/// `Refused`: as `declare` has it. Else `NoMemory`: no event was taken.
pub fn declare_alone<H: Handler<Item> + Drop, B: Books, R: Wait>(
    session: &Session<H, B>,
    rt: &R,
    event: Event,
    caller: &mut Caller<B>,
) -> Result<u32, SessionError>
    requires { numbered_at event ≡ true }
    ensures ok { IfOk result (λ id. Accepts B.Entries.settings H.evicts caller.old caller.new event false (Some id)) }
    ensures err { IfErr result (λ why. Stops B.Entries.settings H.evicts caller.old caller.new event false why) }
{
    match session.ask(rt, event, None, caller) {
        Ok(id) => Ok(id),
        Err(back) => {
            let NotSubmitted { why, handler } = back;
            drop(handler);
            Err(why)
        }
    }
}

/// Leaves what was declared under that number to itself.
///
/// # Errors
///
/// `Refused`: `NotFound` where nothing of that kind and number lives or it was left already, unless the session is
/// closed. Else `NoMemory`: no event was taken.
pub fn leave<H: Handler<Item> + Drop, B: Books, R: Wait>(
    session: &Session<H, B>,
    rt: &R,
    kind: BackgroundKind,
    id: u32,
    caller: &mut Caller<B>,
) -> Result<(), SessionError>
    ensures ok { OnOk result (Accepts B.Entries.settings H.evicts caller.old caller.new (Background kind id) false None) }
    ensures err { IfErr result (λ why. Stops B.Entries.settings H.evicts caller.old caller.new (Background kind id) false why) }
{
    session.tell(rt, background(kind, id), caller)
}

// Waits until no one is inside of a gate, and tells its handler, if it is a handler's.
fn wait_for<H: Handler<Item> + Drop, R: Wait>(
    rt: &R,
    closing: Option<Closing<H>>,
) -> Option<Drained>
    ensures held { is_some result ≡ is_some closing }
    ensures gate { result ≡ option_map (λ c. c.draining.gate) closing }
{
    match closing {
        Some(closing) => {
            let (drained, done) = closing.wait(rt).tell(rt);
            drop(done);
            Some(drained)
        }
        None => None,
    }
}

/// Ends what was declared under that number. With the flag it also waits until none of its callbacks is under way, and answers
/// that they have ended, if the session still held a gate of it; it never returns to whoever is inside of one.
///
/// # Errors
///
/// `Refused`: `NotFound` where nothing of that kind and number lives or it was left to itself, unless the session is
/// closed. Else `NoMemory`: no event was taken.
pub fn undeclare<H: Handler<Item> + Drop, B: Books, R: Wait>(
    session: &Session<H, B>,
    rt: &R,
    kind: EntityKind,
    id: u32,
    waits: bool,
    caller: &mut Caller<B>,
) -> Result<Option<Drained>, SessionError>
    ensures ok { IfOk result (λ drained. AcceptsFor B.Entries.settings H.evicts caller.old caller.new (Undeclare kind id) false None (waited_key waits (Undeclare kind id)) (is_some drained)) }
    ensures at_once { waits ≡ false → IfOk result (λ drained. drained ≡ None) }
    ensures err { IfErr result (λ why. Stops B.Entries.settings H.evicts caller.old caller.new (Undeclare kind id) false why) }
{
    let event = undeclaration(kind, id);
    if waits {
        match session.submit_and_drain(rt, event, caller) {
            Ok(closing) => Ok(wait_for(rt, closing)),
            Err(why) => Err(why),
        }
    } else {
        match session.tell(rt, event, caller) {
            Ok(()) => Ok(None),
            Err(why) => Err(why),
        }
    }
}

/// Whether anyone matches that publisher or querier.
///
/// # Errors
///
/// `Refused`: `SessionClosedError` behind the close, `NotFound` where no such publisher or querier lives. Else
/// `NoMemory`: no event was taken.
pub fn status<H: Handler<Item> + Drop, B: Books, R: Wait>(
    session: &Session<H, B>,
    rt: &R,
    parent: ParentKind,
    id: u32,
    caller: &mut Caller<B>,
) -> Result<MatchingStatus, SessionError>
    ensures ok { IfOk result (λ matching. Tells B.Entries.settings H.evicts caller.old caller.new parent id matching) }
    ensures err { IfErr result (λ why. Stops B.Entries.settings H.evicts caller.old caller.new (Status parent id) false why) }
{
    match declare_alone(session, rt, matching_status(parent, id), caller) {
        Ok(number) => Ok(MatchingStatus::of(number != 0)),
        Err(why) => Err(why),
    }
}
