//! Runs of entries.

ghost use Rattle.std.specs.Prelude.{◌≡◌, ◌<◌, ◌≤◌, ◌++◌, true, length};
ghost use Rattle.std.specs.List.{AllByRecursion};
ghost use Rattle.zs_tree.specs.Entries.{AreInOrder};
ghost use Rattle.zs_tree.specs.Runs.{lies, BeginsWithin};

use crate::code::{Beside, PLAIN, beside_chunk};
use crate::entry::Entry;

/// What may follow the path of a run.
#[derive(Clone, Copy)]
pub(crate) enum Bound<'a> {
    /// Anything.
    Open,
    /// What comes before this plain chunk.
    Below(&'a str),
    /// Nothing.
    Closed,
}

/// Whether a code begins with a path, and what follows lies within a bound.
pub(crate) fn lies(code: &[u8], path: &[u8], bound: Bound<'_>) -> bool
    ensures { result ≡ lies path.now bound.entry code.now }
{
    let Some(rest) = code.strip_prefix(path) else {
        return false;
    };
    match bound {
        Bound::Open => true,
        Bound::Below(chunk) => matches!(beside_chunk(rest, PLAIN, chunk), Beside::Before),
        Bound::Closed => rest.is_empty(),
    }
}

/// A place by doubling steps from the start: the first that was met behind the run, or the end.
fn reach(entries: &[Entry], path: &[u8], bound: Bound<'_>) -> usize
    ensures within { result ≤ length entries.now }
    ensures some { 0 < length entries.now → 0 < result }
{
    let mut end = 1;
    while let Some(entry) = entries.get(end) {
        if !lies(&entry.code, path, bound) {
            return end;
        }
        end = end.saturating_mul(2);
    }
    entries.len()
}

/// The run at the start of some entries, and the entries behind it. Each step of the search is twice as long as the one
/// before, and so a short run costs few.
pub(crate) fn split_run<'a>(
    entries: &'a [Entry],
    path: &[u8],
    bound: Bound<'_>,
) -> (&'a [Entry], &'a [Entry])
    requires order { AreInOrder entries.now }
    requires first { BeginsWithin path.now bound entries.now }
    ensures parts { entries.now ≡ result.0.now ++ result.1.now }
    ensures run { AllByRecursion (λ e. lies path.now bound.entry e.code.items ≡ true) result.0.now }
    ensures some { 0 < length result.0.now }
{
    let end = reach(entries, path, bound);
    let at = entries[..end].partition_point(|entry| lies(&entry.code, path, bound));
    entries.split_at(at)
}
