//! A run of callers.
ghost use Rattle.std.specs.Prelude.{◌≡◌, ◌≤◌, length, IfOk, OnOk};
ghost use Rattle.zs_core.specs.Settings.{default_settings};
ghost use Rattle.zs_books.specs.Callers.{all_parts, most, new_caller};
ghost use Rattle.zs_workers.specs.HandOvers.{hands_of};
ghost use Rattle.zs_workers.specs.Workers.{ComesTo, Counts, IsWorked, events_of};

use crate::counting::count_hands;
use crate::events::subscription;
use crate::putting::{put_beside, step};
use crate::tally::{Worked, Workers};
use std::alloc::{AllocError, Global};
use std::marker::Brand;
use std::sync::ledger::{Blank, Ledger};
use std::sync::{Arc, Wait};
use std::thread::Threads;
use zs_cell::{Books, Caller, Entries, EntryLedger, NoHandler, Session, Three};
use zs_core::Settings;
use zs_events::Event;

// Declares the subscriber, whose handler takes each sample.
fn subscribe<B: Books, R: Wait>(
    rt: &R,
    session: &Session<NoHandler, B>,
    caller: &mut Caller<B>,
) -> Result<(), AllocError>
    ensures { OnOk result (Counts 1 caller.old caller.new) }
{
    let Ok(handler) = Arc::new(session.alloc(), NoHandler) else {
        return Err(AllocError);
    };
    match subscription(session.alloc()) {
        Ok(event) => step(rt, session, event, Some(handler), caller),
        Err(why) => {
            drop(handler);
            Err(why)
        }
    }
}

// What a copy of the journal comes to, beside what a caller counts.
fn tally(entries: Entries, shares: u64) -> Worked
    ensures entries { result.entries ≡ length entries }
    ensures shares { result.shares ≡ shares }
    ensures handed { result.handed ≡ length (hands_of entries) }
{
    let entries = entries.into_vec();
    let worked = Worked {
        entries: entries.len() as u64,
        shares,
        handed: count_hands(entries.as_slice()),
    };
    drop(entries);
    worked
}

// What the session's journal comes to, for a caller that has all parts of its ledgers.
fn count<B: Books, R: Wait>(
    rt: &R,
    session: &Session<NoHandler, B>,
    all: &mut Caller<B>,
) -> Result<Worked, AllocError>
    requires parts { all.old.parts ≡ all_parts }
    requires small { all.old.count ≤ most }
    ensures { IfOk result (λ worked. ComesTo B.Entries.settings all.old.count worked) }
{
    let shares = all.count();
    match session.journal(rt, all) {
        Ok(found) => match found {
            Some(entries) => Ok(tally(entries, shares)),
            None => unreachable!(),
        },
        Err(why) => Err(why),
    }
}

// Runs the callers through a session that was opened for them, from its first event to its close.
fn run<
    E: EntryLedger + Send + Sync,
    S: Ledger + Send + Sync,
    D: Ledger + Send + Sync,
    R: Wait + Threads + Sync,
>(
    rt: &R,
    session: &Session<NoHandler, Three<E, S, D>>,
    workers: Workers,
    caller: Caller<Three<E, S, D>>,
) -> Result<Worked, AllocError>
    requires callers { workers.callers ≤ 64 }
    requires puts { workers.puts ≤ 10000 }
    requires new { caller ≡ new_caller }
    ensures { IfOk result (λ worked. ComesTo E.settings (events_of workers) worked) }
{
    let mut caller = caller;
    subscribe(rt, session, &mut caller)?;
    let mut all = put_beside(rt, session, workers.callers, workers.puts, caller)?;
    step(rt, session, Event::Close, None, &mut all)?;
    count(rt, session, &mut all)
}

/// Opens the session over ledgers without entries, runs the callers through it, and lets go of it.
fn open<
    E: EntryLedger + Send + Sync,
    S: Ledger + Send + Sync,
    D: Ledger + Send + Sync,
    R: Wait + Threads + Sync,
>(
    rt: &R,
    alloc: Global,
    workers: Workers,
    entries: Blank,
    sent: Blank,
    drained: Blank,
) -> Result<Worked, AllocError>
    requires callers { workers.callers ≤ 64 }
    requires puts { workers.puts ≤ 10000 }
    requires settings { E.settings ≡ default_settings }
    requires entries { (entries.name ≡ E.name) × (entries.parts ≡ E.parts) × (E.parts ≡ 4294967296) }
    requires sent { (sent.name ≡ S.name) × (sent.parts ≡ S.parts) × (S.parts ≡ 4294967296) }
    requires drained { (drained.name ≡ D.name) × (drained.parts ≡ D.parts) × (D.parts ≡ 4294967296) }
    ensures { IfOk result (λ worked. IsWorked workers worked) }
{
    let settings = Settings::default();
    let opened = Session::<NoHandler, Three<E, S, D>>::open(
        alloc, &settings, entries, sent, drained,
    );
    match opened {
        Ok(made) => {
            let (session, caller) = made;
            let worked = run(rt, &session, workers, caller);
            drop(session);
            worked
        }
        Err(why) => Err(why),
    }
}

/// Opens a session with the default settings and a subscriber on `w/*`, lets the callers put beside each other, the one of
/// number `J`, from 0, on `w/J`, closes the session once all of them have ended, and counts.
///
/// # Errors
///
/// Want of memory alone.
pub fn work<R: Wait + Threads + Sync>(
    rt: &R,
    alloc: Global,
    workers: Workers,
) -> Result<Worked, AllocError>
    requires callers { workers.callers ≤ 64 }
    requires puts { workers.puts ≤ 10000 }
    ensures { IfOk result (λ worked. IsWorked workers worked) }
{
    let entries = Blank::new(1 << 32);
    let sent = Blank::new(1 << 32);
    let drained = Blank::new(1 << 32);
    open::<Brand, Brand, Brand, R>(rt, alloc, workers, entries, sent, drained)
}
