//! Sessions for the tests.
ghost use Rattle.std.specs.Prelude.{◌≡◌, ◌<◌};
ghost use Rattle.zs_core.specs.Settings.{default_settings};

use crate::callers::{one_caller, two_callers};
use crate::keys::with_keys;
use crate::threads::three_threads;
use std::alloc::Global;
use std::marker::Brand;
use std::process::Abort;
use std::sync::Wait;
use std::sync::ledger::{Blank, Ledger};
use std::thread::Threads;
use zs_cell::{Caller, EntryLedger, Item, Session, Three};
use zs_core::Settings;
use zs_handlers::FifoSender;

/// Which calls are made.
#[derive(Clone, Copy)]
pub(crate) enum Calls {
    OneCaller,
    TwoCallers,
    Keys,
    Threads,
}

/// Makes the calls, and uses the caller up; some of them split it twice.
fn make<
    E: EntryLedger + Send + Sync,
    S: Ledger + Send + Sync,
    D: Ledger + Send + Sync,
    R: Wait + Abort + Threads + Sync,
>(
    rt: &R,
    session: &Session<FifoSender<Item>, Three<E, S, D>>,
    calls: Calls,
    mut caller: Caller<Three<E, S, D>>,
)
    requires { 2 < caller.parts }
{
    match calls {
        Calls::OneCaller => one_caller(rt, session, caller),
        Calls::TwoCallers => two_callers(rt, session, caller),
        Calls::Keys => {
            with_keys(rt, session, &mut caller);
            drop(caller);
        }
        Calls::Threads => three_threads(rt, session, caller),
    }
}

/// Opens a session of default settings for the calls; without a session the test fails.
fn open<
    E: EntryLedger + Send + Sync,
    S: Ledger + Send + Sync,
    D: Ledger + Send + Sync,
    R: Wait + Abort + Threads + Sync,
>(rt: &R, alloc: Global, calls: Calls, entries: Blank, sent: Blank, drained: Blank)
    requires settings { E.settings ≡ default_settings }
    requires entries { (entries.name ≡ E.name) × (entries.parts ≡ E.parts) × (E.parts ≡ 4294967296) }
    requires sent { (sent.name ≡ S.name) × (sent.parts ≡ S.parts) × (S.parts ≡ 4294967296) }
    requires drained { (drained.name ≡ D.name) × (drained.parts ≡ D.parts) × (D.parts ≡ 4294967296) }
{
    let settings = Settings::default();
    let opened = Session::<FifoSender<Item>, Three<E, S, D>>::open(
        alloc, &settings, entries, sent, drained,
    );
    let Ok((session, caller)) = opened else {
        panic!(rt; "no session")
    };
    make(rt, &session, calls, caller);
    drop(session);
}

// Makes the calls in a session of their own.
fn run<R: Wait + Abort + Threads + Sync>(rt: &R, alloc: Global, calls: Calls) {
    let entries = Blank::new(1 << 32);
    let sent = Blank::new(1 << 32);
    let drained = Blank::new(1 << 32);
    open::<Brand, Brand, Brand, R>(rt, alloc, calls, entries, sent, drained);
}

/// A caller that has all parts is told each event with its turn, and each message, once.
#[test]
fn tells_one_caller(rt: HostRuntime) {
    run(&rt, rt.alloc(), Calls::OneCaller);
}

/// A share isn't told how many events there are; who joins all parts again is.
#[test]
fn tells_whoever_has_all_parts(rt: HostRuntime) {
    run(&rt, rt.alloc(), Calls::TwoCallers);
}

/// A key is given back as often as it was declared; a stranger's, or one under no number, is refused.
#[test]
fn gives_keys_back_as_often(rt: HostRuntime) {
    run(&rt, rt.alloc(), Calls::Keys);
}

/// Two threads put beside each other for a slow receiver, and the session counts all their puts.
#[test]
fn all_puts_are_counted(rt: HostRuntime) {
    run(&rt, rt.alloc(), Calls::Threads);
}
