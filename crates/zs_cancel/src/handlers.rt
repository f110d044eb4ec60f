//! The handlers of a token that is cancelled.
ghost use Rattle.std.specs.Prelude.{◌≡◌};
ghost use Rattle.zs_cancel.specs.Runs.{Runs};

use crate::entry::Entry;
use crate::job::Job;
use crate::outcome::Outcome;
use std::alloc::Global;
use std::marker::Model;
use std::vec;

/// The handlers that a token gave to be run, in ascending number. Contracts see them as a list.
#[derive(Drop)]
pub struct Handlers<J: Job> {
    entries: vec::IntoIter<Entry<J>, Global>,
}

impl<J: Job> Model for Handlers<J> {
    ghost use Rattle.std.specs.Prelude.{◌≡◌, List, length};
    ghost use Rattle.std.specs.Vec.Iter.{into_iter_items, into_iter_len};
    ghost use Rattle.zs_cancel.specs.declared.entry.Entry.{Entry};

    ghost Value = { List (Entry J) };

    ghost view = { λ h. into_iter_items h.entries };

    ghost invariant = { λ h. into_iter_len h.entries ≡ length (into_iter_items h.entries) };
}

impl<J: Job> Handlers<J> {
    /// The handlers of these entries, none of which has run. They run in the order of the list.
    pub(crate) fn new(entries: Vec<Entry<J>, Global>) -> Handlers<J>
        ensures { result ≡ entries.items }
    {
        Handlers {
            entries: entries.into_iter(),
        }
    }

    /// Runs the handlers in turn, up to the first that fails. Those behind it stay here, unrun; another call would run
    /// them, and whoever lets go of the value drops them.
    #[tactic(auto, using(crate::proofs::Running::runs_more))]
    pub fn run(&mut self) -> Outcome
        ensures { Runs J.fails self.old result self.new }
    {
        while let Some(Entry { number, job }) = self.entries.next() {
            if job.run().is_err() {
                return Outcome::Failed(number);
            }
        }
        Outcome::Done
    }
}
