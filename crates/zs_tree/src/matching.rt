//! All entries that hit.

ghost use Rattle.std.specs.Prelude.{◌≡◌, ◌++◌, length, take, map, OnOk, OnErr};
ghost use Rattle.zs_tree.specs.Blocks.{flat, AreFilled};
ghost use Rattle.zs_tree.specs.Entries.{AreInOrder, hit_ids};

use crate::block::Block;
use crate::entry::Entry;
use crate::left::Left;
use crate::search::next_run;
use std::alloc::AllocError;

/// Puts the numbers of all entries that hit behind what the list holds.
pub(crate) fn push_hits(
    blocks: &[Block],
    asked: &str,
    into: &mut Vec<u32>,
) -> Result<(), AllocError>
    requires order { AreInOrder (flat blocks.now) }
    requires filled { AreFilled blocks.now }
    ensures ok { OnOk result (into.new.items ≡ into.old.items ++ hit_ids asked.now (flat blocks.now)) }
    ensures err { OnErr result (take (length into.old.items) into.new.items ≡ into.old.items) }
{
    let mut rest = Left::of(blocks);
    while let Some((run, behind)) = next_run(rest, asked) {
        push_ids(run, into)?;
        rest = behind;
    }
    Ok(())
}

/// Puts the numbers of a run behind what the list holds: all of them or, without memory, none.
fn push_ids(run: &[Entry], into: &mut Vec<u32>) -> Result<(), AllocError>
    ensures ok { OnOk result (into.new.items ≡ into.old.items ++ map (λ e. e.id) run.now) }
    ensures err { OnErr result (into.new.items ≡ into.old.items) }
{
    into.reserve(run.len())?;
    for entry in run {
        let _ = into.push(entry.id);
    }
    Ok(())
}
