//! The search for the entries whose key has a key in common with a given one.

ghost use Rattle.std.specs.Prelude.{◌≡◌, [], filter, MatchOption};
ghost use Rattle.zs_tree.specs.Blocks.{left_of, AreFilled};
ghost use Rattle.zs_tree.specs.Entries.{AreInOrder, IsNextRun, hits};

use crate::entry::Entry;
use crate::left::Left;
use crate::walk::{Answer, walk};

/// The next run of entries that all have a key in common with the asked one, and the entries behind it.
pub(crate) fn next_run<'a>(left: Left<'a>, asked: &str) -> Option<(&'a [Entry], Left<'a>)>
    requires order { AreInOrder (left_of left) }
    requires filled { AreFilled left.later.now }
    ensures { MatchOption result (filter (hits asked.now) (left_of left.entry) ≡ [])
        (λ p. IsNextRun asked.now (left_of left.entry) p.0.now (left_of p.1) × AreFilled p.1.later.now) }
{
    let mut rest = left;
    while let Some((first, entered)) = rest.enter() {
        match walk(asked, first) {
            Answer::Meets => return Some(entered.split(&first.code)),
            Answer::Skips(path, bound) => rest = entered.skip(path, bound),
        }
    }
    None
}
