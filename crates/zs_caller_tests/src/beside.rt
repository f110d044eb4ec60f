//! What runs beside a call whose handler is held.
use crate::events::{calling, publication};
use crate::holding::{Holding, comes, has_left};
use crate::waiting::Beside;
use std::sync::Wait;
use zs_cell::{Books, Caller, Closing, Session, SessionToken};
use zs_declaring::undeclaration;
use zs_events::{EntityKind, Event};

// Steps the session by an event: whether the session took it.
fn takes<B: Books, R: Wait>(
    rt: &R,
    session: &Session<Holding, B>,
    event: Event,
    caller: &mut Caller<B>,
) -> bool {
    session.submit(rt, event, None, caller).is_ok()
}

/// Calls the handler: whether the session took that.
pub(crate) fn calls<B: Books, R: Wait>(
    rt: &R,
    session: &Session<Holding, B>,
    beside: Beside,
    caller: &mut Caller<B>,
) -> bool {
    match calling(session.alloc(), beside) {
        Ok(event) => takes(rt, session, event, caller),
        Err(_) => false,
    }
}

/// Puts where no handler is called, and then releases the held one: whether the put was answered while that one was held.
pub(crate) fn puts<B: Books, R: Wait>(
    rt: &R,
    session: &Session<Holding, B>,
    words: &Holding,
    caller: &mut Caller<B>,
) -> bool {
    let called = comes(&words.entered);
    let put = match publication(session.alloc(), "j") {
        Ok(event) => takes(rt, session, event, caller),
        Err(_) => false,
    };
    let held = !has_left(words);
    words.release();
    called && put && held
}

// Waits until no call is inside of a gate: whether the session still held that gate.
fn waits_for<R: Wait>(rt: &R, closing: Option<Closing<Holding>>) -> bool {
    match closing {
        Some(closing) => {
            let (drained, done) = closing.wait(rt).tell(rt);
            drop(done);
            drop(drained);
            true
        }
        None => false,
    }
}

/// Undeclares the subscriber while its handler is held, and waits: whether that call has ended by then.
pub(crate) fn undeclares<B: Books, R: Wait>(
    rt: &R,
    session: &Session<Holding, B>,
    id: u32,
    words: &Holding,
    caller: &mut Caller<B>,
) -> bool {
    let called = comes(&words.entered);
    let waited = match session.submit_and_drain(rt, undeclaration(EntityKind::Sub, id), caller) {
        Ok(closing) => waits_for(rt, closing),
        Err(_) => false,
    };
    called && waited && has_left(words)
}

/// Closes the session while the handler is held, and waits: whether that call has ended by then, and the session is told to be
/// closed from then on. A second close is accepted.
pub(crate) fn closes<B: Books, R: Wait>(
    rt: &R,
    session: &Session<Holding, B>,
    words: &Holding,
    caller: &mut Caller<B>,
) -> bool {
    let called = comes(&words.entered);
    let open = !session.is_closed(rt);
    let closed = session.close(rt, true, caller).is_ok() && session.is_closed(rt);
    let left = has_left(words);
    let again = session.close(rt, true, caller).is_ok() && session.is_closed(rt);
    called && open && closed && left && again
}

/// Cancels the token of the get while its handler is held: whether that call has ended by then, and the token is told to be
/// cancelled from then on. A second cancel is accepted.
pub(crate) fn cancels<B: Books, R: Wait>(
    rt: &R,
    token: &SessionToken<Holding, B>,
    words: &Holding,
    caller: &mut Caller<B>,
) -> bool {
    let called = comes(&words.entered);
    let live = !token.is_cancelled(rt);
    let cancelled = token.cancel(rt, caller).is_ok() && token.is_cancelled(rt);
    let left = has_left(words);
    let again = token.cancel(rt, caller).is_ok() && token.is_cancelled(rt);
    called && live && cancelled && left && again
}
