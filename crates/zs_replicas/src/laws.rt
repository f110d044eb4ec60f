//! The law of stores over linked sessions: the contract of a function that does nothing but call the laws that it rests on.

ghost use Rattle.zs_replicas.specs.Replicas.{DefaultSessionsStart, StoresHoldWhatWasWritten};

use zs_arrivals::{arrivals_are_in_order, samples_follow_publications};
use zs_store::laws::{stores_hold_best, stores_join};

/// Behind every schedule of writes, questions, answers and deliveries, a side's store has at each key the greatest entry of all
/// that its own application wrote and of what the other one did, but for the newest, whose pushes still wait; and where no push
/// waits, both stores are equal.
pub fn stores_hold_what_was_written()
    ensures { StoresHoldWhatWasWritten }
{
    arrivals_are_in_order();
    samples_follow_publications();
    stores_hold_best();
    stores_join();
}

/// Sessions of the default settings accept the first declarations where all keys below `r` are replicated: so the law above says
/// something of them.
pub fn default_sessions_start()
    ensures { DefaultSessionsStart }
{}
