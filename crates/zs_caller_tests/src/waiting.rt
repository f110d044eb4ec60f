//! Calls beside one whose handler is held: which wait for it, and which don't.
ghost use Rattle.std.specs.Prelude.{◌≡◌, ◌<◌};
ghost use Rattle.zs_core.specs.Settings.{default_settings};

use crate::beside::{calls, cancels, closes, puts, undeclares};
use crate::events::handled;
use crate::holding::{Holding, new_holding, releases_late};
use crate::trouble::Trouble;
use std::alloc::Global;
use std::marker::Brand;
use std::sync::ledger::{Blank, Ledger};
use std::sync::{Arc, Wait};
use std::test::Fail;
use std::thread;
use std::thread::Threads;
use zs_cell::{Books, Caller, EntryLedger, Session, SessionToken, Three};
use zs_core::Settings;

/// Which call runs beside the one whose handler is held.
#[derive(Clone, Copy)]
pub(crate) enum Beside {
    Put,
    Undeclaration,
    Close,
    Cancel,
}

// Makes the call beside, once the handler is called.
fn call_beside<B: Books, R: Wait>(
    rt: &R,
    session: &Session<Holding, B>,
    token: &SessionToken<Holding, B>,
    beside: Beside,
    id: u32,
    words: &Holding,
    mut caller: Caller<B>,
) -> (Caller<B>, bool) {
    let passed = match beside {
        Beside::Put => puts(rt, session, words, &mut caller),
        Beside::Undeclaration => undeclares(rt, session, id, words, &mut caller),
        Beside::Close => closes(rt, session, words, &mut caller),
        Beside::Cancel => cancels(rt, token, words, &mut caller),
    };
    (caller, passed)
}

// Makes the call whose handler is held.
fn call_held<B: Books, R: Wait>(
    rt: &R,
    session: &Session<Holding, B>,
    beside: Beside,
    mut caller: Caller<B>,
) -> (Caller<B>, bool) {
    let passed = calls(rt, session, beside, &mut caller);
    (caller, passed)
}

// Releases the handler late, where the call beside doesn't release it.
fn releases(beside: Beside, words: &Holding) -> bool {
    match beside {
        Beside::Put => true,
        _ => releases_late(words),
    }
}

// What was begun before the calls: a token, the number of what has the handler, and that handler's words.
#[derive(Drop)]
struct Begun<B: Books> {
    token: SessionToken<Holding, B>,
    id: u32,
    words: Arc<Holding>,
}

// Declares the subscriber, or asks with the token: its number.
fn declare<B: Books, R: Wait>(
    rt: &R,
    session: &Session<Holding, B>,
    beside: Beside,
    token: u32,
    handler: Arc<Holding>,
    caller: &mut Caller<B>,
) -> Result<u32, Trouble> {
    let event = handled(session.alloc(), beside, token)?;
    let number = session.submit(rt, event, Some(handler), caller)?;
    match number {
        Some(id) => Ok(id),
        None => Err(Trouble::Order),
    }
}

/// Makes a token, and declares or asks with the handler that is to be held.
fn begin<B: Books, R: Wait>(
    rt: &R,
    session: &Session<Holding, B>,
    beside: Beside,
    caller: &mut Caller<B>,
) -> Result<Begun<B>, Trouble> {
    let (handler, words) = new_holding(session.alloc())?;
    let token = session.cancellation_token(rt, caller)?;
    match declare(rt, session, beside, token.number(), handler, caller) {
        Ok(id) => Ok(Begun { token, id, words }),
        Err(why) => {
            drop(token);
            drop(words);
            Err(why)
        }
    }
}

// One thread makes a call whose handler is held, another one a call beside it, and a third one releases the handler: both callers
// in one, and whether all went well.
fn call_both<
    E: EntryLedger + Send + Sync,
    S: Ledger + Send + Sync,
    D: Ledger + Send + Sync,
    R: Wait + Threads + Sync,
>(
    rt: &R,
    session: &Session<Holding, Three<E, S, D>>,
    beside: Beside,
    begun: &Begun<Three<E, S, D>>,
    first: Caller<Three<E, S, D>>,
    second: Caller<Three<E, S, D>>,
) -> (Caller<Three<E, S, D>>, bool) {
    let words = &*begun.words;
    let token = &begun.token;
    let id = begun.id;
    let (held, (other, released)) = thread::join(
        rt,
        move || call_held(rt, session, beside, first),
        move || {
            thread::join(
                rt,
                move || call_beside(rt, session, token, beside, id, words, second),
                move || releases(beside, words),
            )
        },
    );
    let (first, called) = held;
    let (second, answered) = other;
    (first.join(second), called && answered && released)
}

// How many events both calls make, with a token and a declaration before them: a second close and a second cancel count too.
fn events_of(beside: Beside) -> u64 {
    match beside {
        Beside::Put => 4,
        Beside::Undeclaration => 4,
        Beside::Close => 5,
        Beside::Cancel => 5,
    }
}

// Whether the session took as many events as both calls make.
fn is_whole<B: Books, R: Wait>(
    rt: &R,
    session: &Session<Holding, B>,
    beside: Beside,
    mut all: Caller<B>,
) -> bool {
    session.entries(rt, &mut all) == Some(events_of(beside))
}

/// Begins, and makes both calls.
fn hold<
    E: EntryLedger + Send + Sync,
    S: Ledger + Send + Sync,
    D: Ledger + Send + Sync,
    R: Wait + Threads + Sync,
>(
    rt: &R,
    session: &Session<Holding, Three<E, S, D>>,
    beside: Beside,
    mut caller: Caller<Three<E, S, D>>,
) -> Result<bool, Trouble>
    requires { 2 < caller.parts }
{
    let first = caller.split(1);
    let second = caller.split(1);
    match begin(rt, session, beside, &mut caller) {
        Ok(begun) => {
            let (others, passed) = call_both(rt, session, beside, &begun, first, second);
            drop(begun);
            let whole = is_whole(rt, session, beside, caller.join(others));
            Ok(passed && whole)
        }
        Err(why) => {
            drop(first);
            drop(second);
            drop(caller);
            Err(why)
        }
    }
}

/// Opens a session of default settings, and makes both calls: whether all went well.
fn open<
    E: EntryLedger + Send + Sync,
    S: Ledger + Send + Sync,
    D: Ledger + Send + Sync,
    R: Wait + Threads + Sync,
>(
    rt: &R,
    alloc: Global,
    beside: Beside,
    entries: Blank,
    sent: Blank,
    drained: Blank,
) -> Result<bool, Trouble>
    requires settings { E.settings ≡ default_settings }
    requires entries { (entries.name ≡ E.name) × (entries.parts ≡ E.parts) × (E.parts ≡ 4294967296) }
    requires sent { (sent.name ≡ S.name) × (sent.parts ≡ S.parts) × (S.parts ≡ 4294967296) }
    requires drained { (drained.name ≡ D.name) × (drained.parts ≡ D.parts) × (D.parts ≡ 4294967296) }
{
    let settings = Settings::default();
    let opened = Session::<Holding, Three<E, S, D>>::open(alloc, &settings, entries, sent, drained);
    let (session, caller) = opened?;
    hold(rt, &session, beside, caller)
}

// Runs both calls in a session of their own.
fn run<R: Wait + Threads + Sync>(rt: &R, alloc: Global, beside: Beside) -> Result<(), Trouble> {
    let entries = Blank::new(1 << 32);
    let sent = Blank::new(1 << 32);
    let drained = Blank::new(1 << 32);
    let passed = open::<Brand, Brand, Brand, R>(rt, alloc, beside, entries, sent, drained)?;
    if passed { Ok(()) } else { Err(Trouble::Order) }
}

/// A put that calls no handler is answered while another call's handler is held.
#[test]
fn held_call(rt: HostRuntime) -> Result<(), Fail> {
    run(&rt, rt.alloc(), Beside::Put)?;
    Ok(())
}

/// An undeclaration that drains waits for the call of its subscriber's handler.
#[test]
fn waiting_undeclaration(rt: HostRuntime) -> Result<(), Fail> {
    run(&rt, rt.alloc(), Beside::Undeclaration)?;
    Ok(())
}

/// A close that waits is answered after the held call's end; the session is closed from then on.
#[test]
fn waiting_close(rt: HostRuntime) -> Result<(), Fail> {
    run(&rt, rt.alloc(), Beside::Close)?;
    Ok(())
}

/// The cancel of a token waits for the call of its get's handler; the token is cancelled from then on.
#[test]
fn waiting_cancel(rt: HostRuntime) -> Result<(), Fail> {
    run(&rt, rt.alloc(), Beside::Cancel)?;
    Ok(())
}
