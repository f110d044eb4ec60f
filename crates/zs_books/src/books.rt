//! The three ledgers that a session has, named by types.

ghost use Rattle.zs_core.specs.Types.{Settings};
ghost use Rattle.zs_core.specs.Settings.{default_settings};

use std::marker::{Brand, PhantomData};
use std::sync::ledger::Ledger;

/// The ledger of a session's events. It also names the settings that the session is opened with, for contracts alone.
pub trait EntryLedger: Ledger {
    ghost settings: { Settings };
}

impl EntryLedger for Brand {
    ghost settings = { default_settings };
}

/// The ledgers of a session: of the events that it took, of the messages that it sent, and of those that were drained.
pub trait Books {
    /// Of the events that the session took. It names the settings too.
    type Entries: EntryLedger;

    /// Of the messages that it sent.
    type Sent: Ledger;

    /// Of those that were drained.
    type Drained: Ledger;
}

/// Three ledgers, as those of a session.
pub struct Three<E, S, D> {
    entries: PhantomData<E>,
    sent: PhantomData<S>,
    drained: PhantomData<D>,
}

impl<E: EntryLedger, S: Ledger, D: Ledger> Books for Three<E, S, D> {
    type Entries = E;

    type Sent = S;

    type Drained = D;
}
