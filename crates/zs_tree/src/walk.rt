//! A walk along an asked key and a stored one.

ghost use Rattle.std.specs.Prelude.{◌≡◌, true, false, [], ◌∷◌};
ghost use Rattle.zs_keys.specs.Text.{is_double_star};
ghost use Rattle.zs_tree.specs.Chunks.{chunks_left};
ghost use Rattle.zs_tree.specs.Walk.{Tells, IsLed, IsNext, Goes};

use crate::chunks::Chunks;
use crate::code::{Beside, PLAIN, before, behind_chunk, beside_chunk, is_rough};
use crate::entry::Entry;
use crate::gap::gap;
use crate::runs::Bound;
use zs_keys::{chunk_meets, texts_meet};

/// What a walk tells.
#[derive(Clone, Copy)]
pub(crate) enum Answer<'a> {
    /// The stored key has a key in common with the asked one.
    Meets,
    /// It does not, and no key behind it does that begins with this path and goes on within this bound.
    Skips(&'a [u8], Bound<'a>),
}

/// What a walk has before it: the chunks of both keys, the code of the stored ones, and that code from behind the last
/// wild chunk of either key.
#[derive(Clone, Copy)]
pub(crate) struct Place<'a> {
    left: Chunks<'a>,
    right: Chunks<'a>,
    code: &'a [u8],
    firm: &'a [u8],
}

/// A turn of a walk.
#[derive(Clone, Copy)]
pub(crate) enum Turn<'a> {
    On(Place<'a>),
    Done(Answer<'a>),
}

/// Walks along both keys.
pub(crate) fn walk<'a>(asked: &'a str, stored: &'a Entry) -> Answer<'a>
    ensures { Tells asked.now stored.now result }
{
    let mut at = start(asked, stored);
    loop {
        match take_turn(asked, stored, at) {
            Turn::On(next) => at = next,
            Turn::Done(answer) => return answer,
        }
    }
}

/// The place before the first chunks of both keys, where no wild chunk is passed yet.
fn start<'a>(asked: &'a str, stored: &'a Entry) -> Place<'a>
    ensures { IsLed asked.now stored.now result }
{
    Place {
        left: Chunks::of(asked),
        right: Chunks::of(stored.text.as_str()),
        code: &stored.code,
        firm: &stored.code,
    }
}

/// Goes on behind the next chunk of both keys, or tells where it ends.
fn take_turn<'a>(asked: &'a str, stored: &'a Entry, at: Place<'a>) -> Turn<'a>
    requires { IsLed asked.now stored.now at }
    ensures { Goes asked.now stored.now at.entry result }
{
    let Some((theirs, right)) = at.right.next_chunk() else {
        return match at.left.next_chunk() {
            None => Turn::Done(Answer::Meets),
            Some(_) => Turn::Done(whole(asked, stored)),
        };
    };
    if theirs == "**" {
        return Turn::Done(behind_stars(asked, stored, at, theirs, right));
    }
    let Some((ours, left)) = at.left.next_chunk() else {
        return Turn::Done(asked_ends(asked, stored, at, theirs));
    };
    if ours == "**" {
        return Turn::Done(whole(asked, stored));
    }
    if is_rough(ours) || is_rough(theirs) {
        let code = behind_chunk(at.code, theirs);
        if chunk_meets(ours, theirs) {
            return Turn::On(Place {
                left,
                right,
                code,
                firm: code,
            });
        }
        return Turn::Done(Answer::Skips(before(&stored.code, code), Bound::Open));
    }
    match beside_chunk(at.code, PLAIN, ours) {
        Beside::Within(code) => Turn::On(Place {
            left,
            right,
            code,
            firm: at.firm,
        }),
        Beside::Before => Turn::Done(Answer::Skips(
            before(&stored.code, at.code),
            Bound::Below(ours),
        )),
        Beside::Behind => Turn::Done(Answer::Skips(before(&stored.code, at.firm), Bound::Open)),
    }
}

/// The asked key has no chunk left, and the stored one has one that is not `**`.
fn asked_ends<'a>(asked: &'a str, stored: &'a Entry, at: Place<'a>, theirs: &str) -> Answer<'a>
    requires led { IsLed asked.now stored.now at }
    requires asked_end { chunks_left at.left ≡ [] }
    requires stored_next { IsNext theirs.now at.right }
    requires no_star { is_double_star theirs.now ≡ false }
    ensures { Tells asked.now stored.now result }
{
    if is_rough(theirs) {
        return Answer::Skips(
            before(&stored.code, behind_chunk(at.code, theirs)),
            Bound::Open,
        );
    }
    Answer::Skips(before(&stored.code, at.firm), Bound::Open)
}

/// The stored key goes on with a `**`, and then with what is left of it. Where a plain chunk is next there, all in the gap
/// between the asked chunks are left out.
fn behind_stars<'a>(
    asked: &'a str,
    stored: &'a Entry,
    at: Place<'a>,
    stars: &str,
    right: Chunks<'a>,
) -> Answer<'a>
    requires led { IsLed asked.now stored.now at }
    requires stored_next { chunks_left at.right ≡ stars.now ∷ chunks_left right }
    requires double_star { is_double_star stars.now ≡ true }
    ensures { Tells asked.now stored.now result }
{
    let Some((theirs, _)) = right.next_chunk() else {
        return whole(asked, stored);
    };
    if is_rough(theirs) {
        return whole(asked, stored);
    }
    let behind = behind_chunk(at.code, stars);
    match gap(at.left, behind) {
        Some(bound) => Answer::Skips(before(&stored.code, behind), bound),
        None => whole(asked, stored),
    }
}

/// Tests the whole keys, and tells of the stored one alone.
fn whole<'a>(asked: &'a str, stored: &'a Entry) -> Answer<'a>
    ensures { Tells asked.now stored.now result }
{
    if texts_meet(asked, stored.text.as_str()) {
        return Answer::Meets;
    }
    Answer::Skips(&stored.code, Bound::Closed)
}
