//! Which key expressions have a key in common.

ghost use Rattle.std.specs.Prelude.{◌≡◌, ℕ, List, ◌==◌};
ghost use Rattle.zs_keys.specs.Matching.{meets, chunk_meets, is_any, is_free, intersects};
ghost use Rattle.zs_keys.specs.Text.{is_double_star};
ghost use Rattle.zs_keys.specs.Chunks.{chunks_left};
ghost use Rattle.zs_keys.specs.Units.{units_left};
ghost use Rattle.zs_keys.specs.Segments.{segment_left};

use crate::chunks::Chunks;
use crate::pattern::{Pattern, matches_list};
use crate::segment::{Segment, next_verbatim};
use crate::units::Units;
use crate::verbatim::is_verbatim;

impl<'a> Pattern for Units<'a> {
    type Element = u8;

    ghost Seen = { ℕ };

    ghost seen = { λ unit. unit };

    ghost elements = { units_left };

    ghost wild = { is_any };

    ghost wild_right = { is_any };

    ghost same = { λ a b. a == b };

    /// The next unit of the chunk, with `$` for each `$*`, and the walk behind it.
    fn split_first(self) -> Option<(u8, Units<'a>)> {
        self.next_unit()
    }

    /// Whether the unit is `$`, as a `$*` is read: it stands for any characters.
    fn is_wild(unit: u8) -> bool
        ensures { result ≡ is_any unit }
    {
        unit == b'$'
    }

    /// The same on the right: the two sides are treated alike.
    fn is_wild_right(unit: u8) -> bool
        ensures { result ≡ is_any unit }
    {
        Self::is_wild(unit)
    }

    /// Whether the units are the same byte.
    fn is_same(left: u8, right: u8) -> bool
        ensures { result ≡ (left == right) }
    {
        left == right
    }
}

/// Whether two chunks other than `**` have a chunk in common. It takes any texts, and is meant for chunks of canonical
/// ones.
#[tactic(auto, using(crate::proofs::EqualLemmas::equal_steps))]
pub fn chunk_meets(left: &str, right: &str) -> bool
    ensures { result ≡ chunk_meets left.now right.now }
{
    if left == right {
        return true;
    }
    if is_verbatim(left) || is_verbatim(right) {
        return false;
    }
    left == "*" || right == "*" || matches_list(Units::of(left), Units::of(right))
}

impl<'a> Pattern for Segment<'a> {
    type Element = &'a str;

    ghost Seen = { List ℕ };

    ghost seen = { λ chunk. chunk.now };

    ghost elements = { segment_left };

    ghost wild = { is_double_star };

    ghost wild_right = { is_double_star };

    ghost same = { chunk_meets };

    /// The next chunk, and the walk behind it. It ends before a verbatim chunk.
    fn split_first(self) -> Option<(&'a str, Segment<'a>)> {
        self.next_free()
    }

    /// Whether the chunk stands for any number of chunks.
    fn is_wild(chunk: &'a str) -> bool
        ensures { result ≡ is_double_star chunk.now }
    {
        chunk == "**"
    }

    /// The same on the right: the two sides are treated alike.
    fn is_wild_right(chunk: &'a str) -> bool
        ensures { result ≡ is_double_star chunk.now }
    {
        Self::is_wild(chunk)
    }

    /// Whether the two chunks have a chunk in common. They need not be the same text.
    fn is_same(left: &'a str, right: &'a str) -> bool
        ensures { result ≡ chunk_meets left.now right.now }
    {
        chunk_meets(left, right)
    }
}

/// Whether two lists of chunks have a key in common: between verbatim chunks they match apart from one another.
#[tactic(auto, using(crate::proofs::CutLemmas::meet_steps))]
fn chunks_meet(left: Chunks<'_>, right: Chunks<'_>) -> bool
    ensures { result ≡ meets is_double_star is_double_star is_free chunk_meets (chunks_left left.entry)
        (chunks_left right.entry) }
{
    let mut left = left;
    let mut right = right;
    loop {
        if !matches_list(Segment::of(left), Segment::of(right)) {
            return false;
        }
        let Some((verbatim, left_rest)) = next_verbatim(left) else {
            return next_verbatim(right).is_none();
        };
        let Some((other, right_rest)) = next_verbatim(right) else {
            return false;
        };
        if !chunk_meets(verbatim, other) {
            return false;
        }
        left = left_rest;
        right = right_rest;
    }
}

/// Whether two key expressions have a key in common, by their texts. It takes any texts, and is meant for canonical ones.
#[tactic(auto, using(crate::proofs::EqualLemmas::equal_steps))]
pub fn texts_meet(left: &str, right: &str) -> bool
    ensures { result ≡ intersects left.now right.now }
{
    left == right || chunks_meet(Chunks::of(left), Chunks::of(right))
}
