//! Which key expressions include another: each key of the other is one of theirs.

ghost use Rattle.std.specs.Prelude.{◌≡◌, ◌==◌, ℕ, List, true, false};
ghost use Rattle.zs_keys.specs.Text.{is_double_star};
ghost use Rattle.zs_keys.specs.Matching.{meets, chunk_includes, is_any, is_free, includes};
ghost use Rattle.zs_keys.specs.Chunks.{chunks_left};
ghost use Rattle.zs_keys.specs.Segments.{front};
ghost use Rattle.zs_keys.specs.Inclusion.{plain_units_left, plain_segment_left};

use crate::chunks::Chunks;
use crate::pattern::{Pattern, fits_list};
use crate::segment::{Segment, next_verbatim};
use crate::units::Units;
use crate::verbatim::is_verbatim;

/// Units of which those on the right are plain ones, `$*` too.
#[derive(Clone, Copy)]
pub(crate) struct PlainUnits<'a> {
    units: Units<'a>,
}

impl<'a> Pattern for PlainUnits<'a> {
    type Element = u8;

    ghost Seen = { ℕ };

    ghost seen = { λ unit. unit };

    ghost elements = { plain_units_left };

    ghost wild = { is_any };

    ghost wild_right = { λ _. false };

    ghost same = { λ a b. a == b };

    /// The next unit of the chunk, with `$` for each `$*`, and the walk behind it.
    fn split_first(self) -> Option<(u8, PlainUnits<'a>)> {
        let (unit, units) = self.units.next_unit()?;
        Some((unit, PlainUnits { units }))
    }

    /// Whether the unit is `$`, as a `$*` is read: it stands for any characters of the other chunk.
    fn is_wild(unit: u8) -> bool
        ensures { result ≡ is_any unit }
    {
        unit == b'$'
    }

    /// No unit of the included chunk is wild: its `$*` fits only where the other chunk has one.
    fn is_wild_right(_unit: u8) -> bool
        ensures { result ≡ false }
    {
        false
    }

    /// Whether the units are the same byte.
    fn is_same(left: u8, right: u8) -> bool
        ensures { result ≡ (left == right) }
    {
        left == right
    }
}

/// Whether the right chunk is not `**`, and each chunk that it stands for is one of the left, which is not `**`.
fn chunk_includes(left: &str, right: &str) -> bool
    ensures { result ≡ chunk_includes left.now right.now }
{
    if right == "**" {
        return false;
    }
    if left == right {
        return true;
    }
    if is_verbatim(left) || is_verbatim(right) {
        return false;
    }
    if left == "*" {
        return true;
    }
    if right == "*" {
        return false;
    }
    let left = PlainUnits {
        units: Units::of(left),
    };
    let right = PlainUnits {
        units: Units::of(right),
    };
    fits_list(left, right)
}

/// The chunks up to the next verbatim one, of which those on the right are plain ones, `**` too.
#[derive(Clone, Copy)]
pub(crate) struct PlainSegment<'a> {
    segment: Segment<'a>,
}

impl<'a> Pattern for PlainSegment<'a> {
    type Element = &'a str;

    ghost Seen = { List ℕ };

    ghost seen = { λ chunk. chunk.now };

    ghost elements = { plain_segment_left };

    ghost wild = { is_double_star };

    ghost wild_right = { λ _. false };

    ghost same = { chunk_includes };

    /// The next chunk, and the walk behind it. It ends before a verbatim chunk.
    fn split_first(self) -> Option<(&'a str, PlainSegment<'a>)> {
        let (chunk, segment) = self.segment.next_free()?;
        Some((chunk, PlainSegment { segment }))
    }

    /// Whether the chunk stands for any number of chunks of the other key expression.
    fn is_wild(chunk: &'a str) -> bool
        ensures { result ≡ is_double_star chunk.now }
    {
        chunk == "**"
    }

    /// No chunk of the included key expression is wild: its `**` fits only where the other has one.
    fn is_wild_right(_chunk: &'a str) -> bool
        ensures { result ≡ false }
    {
        false
    }

    /// Whether the left chunk includes the right one. They need not be the same text.
    fn is_same(left: &'a str, right: &'a str) -> bool
        ensures { result ≡ chunk_includes left.now right.now }
    {
        chunk_includes(left, right)
    }
}

/// Whether the chunks before the next verbatim ones of each side are included.
fn segment_includes(left: Chunks<'_>, right: Chunks<'_>) -> bool
    ensures { result ≡ meets is_double_star (λ _. false) (λ _. true) chunk_includes
        (front is_free (chunks_left left.entry)) (front is_free (chunks_left right.entry)) }
{
    let left = PlainSegment {
        segment: Segment::of(left),
    };
    let right = PlainSegment {
        segment: Segment::of(right),
    };
    fits_list(left, right)
}

/// Whether one list of chunks includes another: between verbatim chunks they are compared apart from one another.
#[tactic(auto, using(crate::proofs::InclusionLemmas::include_steps))]
fn chunks_include(left: Chunks<'_>, right: Chunks<'_>) -> bool
    ensures { result ≡ meets is_double_star (λ _. false) is_free chunk_includes (chunks_left left.entry)
        (chunks_left right.entry) }
{
    let mut left = left;
    let mut right = right;
    loop {
        if !segment_includes(left, right) {
            return false;
        }
        let Some((verbatim, left_rest)) = next_verbatim(left) else {
            return next_verbatim(right).is_none();
        };
        let Some((other, right_rest)) = next_verbatim(right) else {
            return false;
        };
        if !chunk_includes(verbatim, other) {
            return false;
        }
        left = left_rest;
        right = right_rest;
    }
}

/// Whether each key of the right key expression is one of the left.
pub(crate) fn includes(left: &str, right: &str) -> bool
    ensures { result ≡ includes left.now right.now }
{
    chunks_include(Chunks::of(left), Chunks::of(right))
}
