//! The two sessions of the program: `here` and `there`.
ghost use Rattle.std.specs.Prelude.{◌≡◌};
ghost use Rattle.zs_core.specs.Settings.{default_settings};
ghost use Rattle.first_calls.specs.Places.{there_settings};

use crate::linked::asking::ask_there;
use crate::linked::living::live_here;
use crate::linked::publishing::publish_here;
use crate::trouble::Trouble;
use std::alloc::Global;
use std::io::Print;
use std::marker::Brand;
use std::sync::Wait;
use std::sync::ledger::{Blank, Ledger};
use zs_cell::{Books, Caller, EntryLedger, Item, Session, Three};
use zs_core::Settings;
use zs_handlers::FifoSender;

/// Opens the second session, and uses both.
fn open_there<A: Books, E: EntryLedger, S: Ledger, D: Ledger, R: Wait + Print>(
    rt: &R,
    here: &Session<FifoSender<Item>, A>,
    here_caller: &mut Caller<A>,
    entries: Blank,
    sent: Blank,
    drained: Blank,
) -> Result<(), Trouble>
    requires settings { E.settings ≡ there_settings }
    requires entries { (entries.name ≡ E.name) × (entries.parts ≡ E.parts) × (E.parts ≡ 4294967296) }
    requires sent { (sent.name ≡ S.name) × (sent.parts ≡ S.parts) × (S.parts ≡ 4294967296) }
    requires drained { (drained.name ≡ D.name) × (drained.parts ≡ D.parts) × (D.parts ≡ 4294967296) }
{
    let mut settings = Settings::default();
    settings.zid = 2;
    settings.tag = 2;
    let opened = Session::<FifoSender<Item>, Three<E, S, D>>::open(
        here.alloc(),
        &settings,
        entries,
        sent,
        drained,
    );
    let (there, mut there_caller) = opened?;
    publish_here(rt, here, here_caller, &there, &mut there_caller)?;
    ask_there(rt, here, here_caller, &there, &mut there_caller)?;
    live_here(rt, here, here_caller, &there, &mut there_caller)
}

/// Makes the second session's ledgers.
fn run_there<A: Books, R: Wait + Print>(
    rt: &R,
    here: &Session<FifoSender<Item>, A>,
    here_caller: &mut Caller<A>,
) -> Result<(), Trouble> {
    let entries = Blank::new(1 << 32);
    let sent = Blank::new(1 << 32);
    let drained = Blank::new(1 << 32);
    open_there::<A, Brand, Brand, Brand, R>(rt, here, here_caller, entries, sent, drained)
}

/// Opens the first session, with the default settings.
fn run<E: EntryLedger, S: Ledger, D: Ledger, R: Wait + Print>(
    rt: &R,
    alloc: Global,
    entries: Blank,
    sent: Blank,
    drained: Blank,
) -> Result<(), Trouble>
    requires settings { E.settings ≡ default_settings }
    requires entries { (entries.name ≡ E.name) × (entries.parts ≡ E.parts) × (E.parts ≡ 4294967296) }
    requires sent { (sent.name ≡ S.name) × (sent.parts ≡ S.parts) × (S.parts ≡ 4294967296) }
    requires drained { (drained.name ≡ D.name) × (drained.parts ≡ D.parts) × (D.parts ≡ 4294967296) }
{
    let settings = Settings::default();
    let opened = Session::<FifoSender<Item>, Three<E, S, D>>::open(
        alloc, &settings, entries, sent, drained,
    );
    let (here, mut here_caller) = opened?;
    run_there(rt, &here, &mut here_caller)
}

/// Makes the ledgers of the first session, and opens it.
pub(crate) fn start<R: Wait + Print>(rt: &R, alloc: Global) -> Result<(), Trouble> {
    let entries = Blank::new(1 << 32);
    let sent = Blank::new(1 << 32);
    let drained = Blank::new(1 << 32);
    run::<Brand, Brand, Brand, R>(rt, alloc, entries, sent, drained)
}
