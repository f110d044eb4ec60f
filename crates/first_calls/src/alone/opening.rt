//! The session of the program.
ghost use Rattle.std.specs.Prelude.{◌≡◌};
ghost use Rattle.zs_core.specs.Settings.{default_settings};

use crate::alone::asking::offer_and_ask;
use crate::alone::publishing::subscribe_and_publish;
use crate::alone::putting::subscribe_and_put;
use crate::alone::querying::{ask_and_cancel, declare_and_query};
use crate::trouble::Trouble;
use std::alloc::Global;
use std::io::Print;
use std::marker::Brand;
use std::sync::Wait;
use std::sync::ledger::{Blank, Ledger};
use zs_cell::{Books, Caller, EntryLedger, Item, Session, Three};
use zs_core::Settings;
use zs_handlers::FifoSender;

/// Puts, asks, publishes, asks by a querier, cancels a get and closes the session.
fn use_session<B: Books, R: Wait + Print>(
    rt: &R,
    session: &Session<FifoSender<Item>, B>,
    caller: &mut Caller<B>,
) -> Result<(), Trouble> {
    subscribe_and_put(rt, session, caller)?;
    offer_and_ask(rt, session, caller)?;
    subscribe_and_publish(rt, session, caller)?;
    declare_and_query(rt, session, caller)?;
    ask_and_cancel(rt, session, caller)?;
    session.close(rt, false, caller)?;
    let count = caller.count();
    println!(rt; "{count} events")?;
    Ok(())
}

/// Opens a session with the default settings, and uses it.
fn run<E: EntryLedger, S: Ledger, D: Ledger, R: Wait + Print>(
    rt: &R,
    alloc: Global,
    entries: Blank,
    sent: Blank,
    drained: Blank,
) -> Result<(), Trouble>
    requires settings { E.settings ≡ default_settings }
    requires entries { (entries.name ≡ E.name) × (entries.parts ≡ E.parts) × (E.parts ≡ 4294967296) }
    requires sent { (sent.name ≡ S.name) × (sent.parts ≡ S.parts) × (S.parts ≡ 4294967296) }
    requires drained { (drained.name ≡ D.name) × (drained.parts ≡ D.parts) × (D.parts ≡ 4294967296) }
{
    let settings = Settings::default();
    let opened = Session::<FifoSender<Item>, Three<E, S, D>>::open(
        alloc, &settings, entries, sent, drained,
    );
    let (session, mut caller) = opened?;
    use_session(rt, &session, &mut caller)
}

/// Makes the ledgers of the only session, and opens it.
pub(crate) fn start<R: Wait + Print>(rt: &R, alloc: Global) -> Result<(), Trouble> {
    let entries = Blank::new(1 << 32);
    let sent = Blank::new(1 << 32);
    let drained = Blank::new(1 << 32);
    run::<Brand, Brand, Brand, R>(rt, alloc, entries, sent, drained)
}
