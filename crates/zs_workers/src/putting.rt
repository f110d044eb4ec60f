//! Callers that put.
ghost use Rattle.std.specs.Prelude.{◌≡◌, ◌<◌, ◌+◌, ◌*◌, true, false, is_some, vec_len, All, IfOk, OnOk};
ghost use Rattle.zs_turns.specs.Gates.{takes_handler};
ghost use Rattle.zs_cell.specs.Further.{asks_queryables};
ghost use Rattle.zs_workers.specs.Workers.{Counts, IsNew, HasPut, Lends};

use crate::events::publication;
use std::alloc::{AllocError, Global};
use std::sync::ledger::Ledger;
use std::sync::{Arc, Wait};
use std::thread;
use std::thread::Threads;
use zs_cell::{Books, Caller, EntryLedger, NoHandler, NotSubmitted, Session, SessionError, Three};
use zs_events::Event;

/// Steps the session by an event that asks no queryables, with its handler, if it has one. A refused event counts as any other.
///
/// # Errors
///
/// Want of memory alone. Then the session took nothing.
pub(crate) fn step<B: Books, R: Wait>(
    rt: &R,
    session: &Session<NoHandler, B>,
    event: Event,
    handler: Option<Arc<NoHandler>>,
    caller: &mut Caller<B>,
) -> Result<(), AllocError>
    requires handler { is_some handler ≡ true → takes_handler event ≡ true }
    requires asks { asks_queryables event ≡ false }
    ensures { OnOk result (Counts 1 caller.old caller.new) }
{
    match session.submit(rt, event, handler, caller) {
        Ok(_) => Ok(()),
        Err(back) => {
            let NotSubmitted { why, handler } = back;
            drop(handler);
            match why {
                SessionError::Refused(_) => Ok(()),
                SessionError::NoMemory => Err(AllocError),
                SessionError::OtherSession => unreachable!(),
            }
        }
    }
}

// Lets go of the message that was sent first, of those that wait for the network.
fn let_sent_go<B: Books, R: Wait>(rt: &R, session: &Session<NoHandler, B>, caller: &mut Caller<B>)
    ensures { Counts 0 caller.old caller.new }
{
    let message = session.drain(rt, caller);
    drop(message);
}

// The caller of that number puts once. As many messages are let go as are sent, so no more than one a caller waits.
fn put<B: Books, R: Wait>(
    rt: &R,
    session: &Session<NoHandler, B>,
    number: u64,
    caller: &mut Caller<B>,
) -> Result<(), AllocError>
    ensures { OnOk result (Counts 1 caller.old caller.new) }
{
    let event = publication(session.alloc(), number)?;
    step(rt, session, event, None, caller)?;
    let_sent_go(rt, session, caller);
    Ok(())
}

// The caller of that number, who has not put yet.
#[derive(Drop)]
struct Shift<B: Books> {
    number: u64,
    caller: Caller<B>,
}

// The caller puts so often.
fn put_often<B: Books, R: Wait>(
    rt: &R,
    session: &Session<NoHandler, B>,
    puts: u64,
    shift: Shift<B>,
) -> Result<Caller<B>, AllocError>
    ensures { IfOk result (λ back. Counts puts shift.caller back) }
{
    let Shift { number, mut caller } = shift;
    for _ in 0..puts {
        put(rt, session, number, &mut caller)?;
    }
    Ok(caller)
}

// So many callers, numbered from 0, each with one part of that caller's.
fn shifts_of<B: Books>(
    alloc: Global,
    callers: u64,
    caller: &mut Caller<B>,
) -> Result<Vec<Shift<B>>, AllocError>
    requires { callers < caller.old.parts }
    ensures len { IfOk result (λ shifts. vec_len shifts ≡ callers) }
    ensures new { IfOk result (λ shifts. All (λ shift. IsNew shift.caller) shifts.items) }
    ensures rest { OnOk result (Lends callers caller.old caller.new) }
{
    let mut shifts = Vec::new(alloc);
    for number in 0..callers {
        let caller = caller.split(1);
        shifts.push(Shift { number, caller })?;
    }
    Ok(shifts)
}

// All of them put beside each other, each on a thread of its own where one can be made.
fn put_all<
    E: EntryLedger + Send + Sync,
    S: Ledger + Send + Sync,
    D: Ledger + Send + Sync,
    R: Wait + Threads + Sync,
>(
    rt: &R,
    session: &Session<NoHandler, Three<E, S, D>>,
    puts: u64,
    shifts: Vec<Shift<Three<E, S, D>>>,
) -> Result<Vec<Result<Caller<Three<E, S, D>>, AllocError>>, AllocError>
    requires { All (λ shift. IsNew shift.caller) shifts.items }
    ensures len { IfOk result (λ backs. vec_len backs ≡ vec_len shifts) }
    ensures put { IfOk result (λ backs. All (λ back. IfOk back (λ caller. HasPut puts caller)) backs.items) }
{
    let work = |shift: Shift<Three<E, S, D>>| -> Result<Caller<Three<E, S, D>>, AllocError>
        ensures { IfOk result (λ back. Counts puts shift.caller back) }
    { put_often(rt, session, puts, shift) };
    thread::map_vec(rt, shifts, &work)
}

// What all callers counted, in one.
fn joined<B: Books>(
    caller: Caller<B>,
    backs: Vec<Result<Caller<B>, AllocError>>,
    puts: u64,
) -> Result<Caller<B>, AllocError>
    requires { All (λ back. IfOk back (λ caller. HasPut puts caller)) backs.items }
    ensures parts { IfOk result (λ all. all.parts ≡ caller.parts + vec_len backs) }
    ensures count { IfOk result (λ all. all.count ≡ caller.count + vec_len backs * puts) }
{
    let mut all = caller;
    let mut backs = backs;
    'backs: while let Some(back) = backs.pop() {
        match back {
            Ok(caller) => all = all.join(caller),
            Err(why) => return Err(why),
        }
    }
    Ok(all)
}

/// So many callers put beside each other, the one of number `J`, from 0, on `w/J`, each of them so often, with a part of that
/// caller's each: the caller with what all of them counted.
///
/// # Errors
///
/// Want of memory alone, for any of them, once all have ended.
pub(crate) fn put_beside<
    E: EntryLedger + Send + Sync,
    S: Ledger + Send + Sync,
    D: Ledger + Send + Sync,
    R: Wait + Threads + Sync,
>(
    rt: &R,
    session: &Session<NoHandler, Three<E, S, D>>,
    callers: u64,
    puts: u64,
    caller: Caller<Three<E, S, D>>,
) -> Result<Caller<Three<E, S, D>>, AllocError>
    requires { callers < caller.parts }
    ensures { IfOk result (λ back. Counts (callers * puts) caller back) }
{
    let mut caller = caller;
    let shifts = shifts_of(session.alloc(), callers, &mut caller)?;
    let backs = put_all(rt, session, puts, shifts)?;
    joined(caller, backs, puts)
}
