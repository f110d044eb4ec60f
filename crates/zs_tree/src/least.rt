//! The least number of the entries that hit.

ghost use Rattle.std.specs.Prelude.{◌≡◌, ◌≤◌, None, map};
ghost use Rattle.zs_tree.specs.Rows.{first_above, matches};
ghost use Rattle.zs_tree.specs.Blocks.{flat, AreFilled};
ghost use Rattle.zs_tree.specs.Entries.{AreInOrder, AllAscend, row_of, by_number, lesser};

use crate::block::Block;
use crate::entry::Entry;
use crate::left::Left;
use crate::search::next_run;
use std::sync::ledger::Ledger;
use zs_keys::Steps;

/// The least number above the last one of those entries that hit.
pub(crate) fn least_id<L: Ledger>(
    blocks: &[Block],
    asked: &str,
    after: Option<u32>,
    steps: &mut Steps<L>,
) -> Option<u32>
    requires order { AreInOrder (flat blocks.now) }
    requires filled { AreFilled blocks.now }
    ensures least { result ≡ first_above after (matches asked.now (by_number (map row_of (flat blocks.now)))) }
    ensures counted { steps.old ≤ steps.new }
{
    let mut least = None;
    let mut rest = Left::of(blocks);
    while let Some((run, behind)) = next_run(rest, asked) {
        steps.tick();
        least = lesser(least, first_of_run(run, after));
        rest = behind;
    }
    least
}

/// The first number of a run that is above the last one.
fn first_of_run(run: &[Entry], after: Option<u32>) -> Option<u32>
    requires { AllAscend run.now }
    ensures { result ≡ first_above after (map (λ e. e.id) run.now) }
{
    let Some(after) = after else {
        return first_id(run);
    };
    let at = run.partition_point(|entry| entry.id <= after);
    first_id(&run[at..])
}

/// The number of the first entry of a run. `None` where the run is empty.
fn first_id(run: &[Entry]) -> Option<u32>
    ensures { result ≡ first_above None (map (λ e. e.id) run.now) }
{
    match run.split_first() {
        Some((entry, _)) => Some(entry.id),
        None => None,
    }
}

/// The lesser of two numbers, of those that there are.
fn lesser(left: Option<u32>, right: Option<u32>) -> Option<u32>
    ensures { result ≡ lesser left right }
{
    match (left, right) {
        (Some(left), Some(right)) => Some(left.min(right)),
        (Some(left), None) => Some(left),
        (None, right) => right,
    }
}
