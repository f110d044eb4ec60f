//! The gap behind a place in a code in which no chunk of the asked key is.

ghost use Rattle.std.specs.Prelude.{◌≡◌, ◌++◌, ◌∷◌, [], true, false, IfSome};
ghost use Rattle.std.specs.Ordering.{is_lt};
ghost use Rattle.zs_tree.specs.Chunks.{chunks_left};
ghost use Rattle.zs_tree.specs.Code.{is_rough, onto_chunk, code_cmp};
ghost use Rattle.zs_tree.specs.Runs.{within};
ghost use Rattle.zs_tree.specs.Gap.{IsGap, Narrows};

use crate::chunks::Chunks;
use crate::code::{Beside, PLAIN, beside_chunk, is_rough};
use crate::runs::Bound;

/// How far behind the code no plain chunk is one of the asked key's. There is no answer where the code begins with one
/// of them, or one of them is wild.
pub(crate) fn gap<'a>(asked: Chunks<'a>, code: &[u8]) -> Option<Bound<'a>>
    ensures { IfSome result (λ bound. IsGap (chunks_left asked.entry) code.now bound) }
{
    let mut left = asked;
    let mut bound = Bound::Open;
    while let Some((chunk, rest)) = left.next_chunk() {
        bound = narrow(bound, code, chunk)?;
        left = rest;
    }
    Some(bound)
}

/// The gap without one more chunk.
fn narrow<'a>(bound: Bound<'a>, code: &[u8], chunk: &'a str) -> Option<Bound<'a>>
    requires { within bound code.now ≡ true }
    ensures { IfSome result (λ next. Narrows bound.entry code.now chunk.now next) }
{
    if is_rough(chunk) {
        return None;
    }
    match beside_chunk(code, PLAIN, chunk) {
        Beside::Before => Some(nearer(bound, code, chunk)),
        Beside::Within(_) => None,
        Beside::Behind => Some(bound),
    }
}

/// The bound or the chunk, whichever comes first.
fn nearer<'a>(bound: Bound<'a>, code: &[u8], chunk: &'a str) -> Bound<'a>
    requires inside { within bound code.now ≡ true }
    requires before { is_lt (code_cmp code.now (onto_chunk 2 chunk.now [])) ≡ true }
    requires plain { is_rough chunk.now ≡ false }
    ensures { Narrows bound.entry code.now chunk.now result }
{
    match bound {
        Bound::Open => Bound::Below(chunk),
        Bound::Below(other) => {
            if is_before(chunk.as_bytes(), other.as_bytes()) {
                Bound::Below(chunk)
            } else {
                bound
            }
        }
        Bound::Closed => Bound::Closed,
    }
}

/// Whether a chunk comes before another one in a code, where each ends with a `/`.
fn is_before(chunk: &[u8], other: &[u8]) -> bool
    ensures { result ≡ is_lt (code_cmp (chunk.now ++ (0x2f ∷ [])) (other.now ++ (0x2f ∷ []))) }
{
    let mut left = chunk;
    let mut right = other;
    while let Some((theirs, behind)) = right.split_first() {
        let Some((ours, rest)) = left.split_first() else {
            return b'/' <= *theirs;
        };
        if *ours != *theirs {
            return *ours < *theirs;
        }
        left = rest;
        right = behind;
    }
    match left.split_first() {
        Some((ours, _)) => *ours < b'/',
        None => false,
    }
}
