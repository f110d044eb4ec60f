//! What a look-up has before it.

ghost use Rattle.std.specs.Prelude.{◌≡◌, ◌<◌, ◌++◌, ◌∷◌, [], true, length, MatchOption, List};
ghost use Rattle.std.specs.List.{AllByRecursion};
ghost use Rattle.zs_tree.specs.Entries.{AreInOrder};
ghost use Rattle.zs_tree.specs.Runs.{lies, BeginsWithin};
ghost use Rattle.zs_tree.specs.Blocks.{flat, left_of, AreFilled, begins_within, LieBehind, LeavesOut, EntersAt};

use crate::block::Block;
use crate::entry::Entry;
use crate::runs::{Bound, lies, split_run};

/// The entries that a look-up has before it: those of the block that it is in, and those of the blocks behind it.
#[derive(Clone, Copy)]
pub(crate) struct Left<'a> {
    block: &'a [Entry],
    later: &'a [Block],
}

impl<'a> Left<'a> {
    /// All entries of some blocks.
    pub(crate) fn of(blocks: &'a [Block]) -> Left<'a>
        requires { AreFilled blocks.now }
        ensures all { left_of result ≡ flat blocks.now }
        ensures filled { AreFilled result.later.now }
    {
        Left {
            block: &[],
            later: blocks,
        }
    }

    /// The first entry, with all entries, of which a block begins with it.
    pub(crate) fn enter(self) -> Option<(&'a Entry, Left<'a>)>
        requires { AreFilled self.later.now }
        ensures { MatchOption result (left_of self.entry ≡ []) (λ p. EntersAt p.0.now (left_of self.entry) p.1) }
    {
        if let Some((first, _)) = self.block.split_first() {
            return Some((first, self));
        }
        let (block, later) = self.later.split_first()?;
        let block = block.entries();
        let (first, _) = block.split_first()?;
        Some((first, Left { block, later }))
    }

    /// The run that begins the block, of one code, and what is left behind it.
    pub(crate) fn split(self, code: &[u8]) -> (&'a [Entry], Left<'a>)
        requires order { AreInOrder self.block.now }
        requires first { BeginsWithin code.now Bound.Closed self.block.now }
        requires filled { AreFilled self.later.now }
        ensures parts { left_of self.entry ≡ result.0.now ++ left_of result.1 }
        ensures run { AllByRecursion (λ e. lies code.now Bound.Closed e.code.items ≡ true) result.0.now }
        ensures some { 0 < length result.0.now }
        ensures filled { AreFilled result.1.later.now }
    {
        let (run, block) = split_run(self.block, code, Bound::Closed);
        (
            run,
            Left {
                block,
                later: self.later,
            },
        )
    }

    /// What is left behind the run that the block begins, in which each entry lies within a bound behind a path.
    pub(crate) fn skip(self, path: &[u8], bound: Bound<'_>) -> Left<'a>
        requires order { AreInOrder (left_of self) }
        requires first { BeginsWithin path.now bound self.block.now }
        requires filled { AreFilled self.later.now }
        ensures left { LeavesOut path.now bound.entry (left_of self.entry) (left_of result) }
        ensures fewer { length (left_of result) < length (left_of self.entry) }
        ensures filled { AreFilled result.later.now }
    {
        let (_, block) = split_run(self.block, path, bound);
        if block.is_empty() {
            skip_blocks(self.later, path, bound)
        } else {
            Left {
                block,
                later: self.later,
            }
        }
    }
}

/// What is left of blocks behind those entries that still lie within a bound behind a path.
fn skip_blocks<'a>(later: &'a [Block], path: &[u8], bound: Bound<'_>) -> Left<'a>
    requires behind { LieBehind path.now bound (flat later.now) }
    requires filled { AreFilled later.now }
    ensures left { LeavesOut path.now bound.entry (flat later.now) (left_of result) }
    ensures filled { AreFilled result.later.now }
{
    let count = later.partition_point(|block| begins_within(block, path, bound));
    let Some(at) = count.checked_sub(1) else {
        return Left { block: &[], later };
    };
    let (_, block) = split_run(later[at].entries(), path, bound);
    Left {
        block,
        later: &later[count..],
    }
}

/// Whether the first entry of a block lies within a bound behind a path.
fn begins_within(block: &Block, path: &[u8], bound: Bound<'_>) -> bool
    ensures { result ≡ begins_within path.now bound.entry block.now }
{
    match block.entries().split_first() {
        Some((first, _)) => lies(&first.code, path, bound),
        None => false,
    }
}
