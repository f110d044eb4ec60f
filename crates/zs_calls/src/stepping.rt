//! How the calls step a session.
ghost use Rattle.std.specs.Prelude.{◌≡◌, Err, None, Some, option_map, is_some, true, false, IfOk, IfErr, OnOk};
ghost use Rattle.std.specs.Arc.{arc_value};
ghost use Rattle.zs_turns.specs.Gates.{takes_handler};
ghost use Rattle.zs_held.specs.Numbers.{numbered_at};
ghost use Rattle.zs_cell.specs.Steps.{Accepts, Stops, StopsOr};
ghost use Rattle.zs_cell.specs.declared.error.SessionError.{SessionError};

use std::sync::{Arc, Wait};
use zs_cell::{Books, Caller, Item, NotSubmitted, Session, SessionError};
use zs_events::Event;
use zs_handlers::Handler;

/// Steps the session by an event of a value that is the session's own, as the caller has found.
pub(crate) fn tell_own<H: Handler<Item> + Drop, B: Books, R: Wait>(
    session: &Session<H, B>,
    rt: &R,
    event: Event,
    caller: &mut Caller<B>,
) -> Result<(), SessionError>
    requires { numbered_at event ≡ false }
    ensures ok { OnOk result (Accepts B.Entries.settings H.evicts caller.old caller.new event false None) }
    ensures err { IfErr result (λ why. StopsOr B.Entries.settings H.evicts caller.old caller.new event false why) }
    ensures own { result ≡ Err SessionError.OtherSession → ⊥ }
{
    match session.tell(rt, event, caller) {
        Ok(()) => Ok(()),
        Err(SessionError::Refused(refusal)) => Err(SessionError::Refused(refusal)),
        Err(SessionError::NoMemory) => Err(SessionError::NoMemory),
        Err(SessionError::OtherSession) => unreachable!(),
    }
}

/// The same for an event that is answered a number.
pub(crate) fn ask_own<H: Handler<Item> + Drop, B: Books, R: Wait>(
    session: &Session<H, B>,
    rt: &R,
    event: Event,
    caller: &mut Caller<B>,
) -> Result<u32, SessionError>
    requires { numbered_at event ≡ true }
    ensures ok { IfOk result (λ number. Accepts B.Entries.settings H.evicts caller.old caller.new event false (Some number)) }
    ensures err { IfErr result (λ why. StopsOr B.Entries.settings H.evicts caller.old caller.new event false why) }
    ensures own { result ≡ Err SessionError.OtherSession → ⊥ }
{
    match session.ask(rt, event, None, caller) {
        Ok(number) => Ok(number),
        Err(back) => {
            let NotSubmitted { why, handler } = back;
            drop(handler);
            match why {
                SessionError::Refused(refusal) => Err(SessionError::Refused(refusal)),
                SessionError::NoMemory => Err(SessionError::NoMemory),
                SessionError::OtherSession => unreachable!(),
            }
        }
    }
}

/// Steps the session by an event with a handler, if there is one.
pub(crate) fn ask_with<H: Handler<Item> + Drop, B: Books, R: Wait>(
    session: &Session<H, B>,
    rt: &R,
    event: Event,
    handler: Option<Arc<H>>,
    caller: &mut Caller<B>,
) -> Result<u32, NotSubmitted<H>>
    requires handler { takes_handler event ≡ true }
    requires number { numbered_at event ≡ true }
    ensures ok { IfOk result (λ number. Accepts B.Entries.settings H.evicts caller.old caller.new event (is_some (option_map arc_value handler)) (Some number)) }
    ensures err { IfErr result (λ back. Stops B.Entries.settings H.evicts caller.old caller.new event (is_some (option_map arc_value handler)) back.why) }
    ensures handler { IfErr result (λ back. option_map arc_value back.handler ≡ option_map arc_value handler) }
{
    match handler {
        Some(handler) => session.ask(rt, event, Some(handler), caller),
        None => session.ask(rt, event, None, caller),
    }
}
