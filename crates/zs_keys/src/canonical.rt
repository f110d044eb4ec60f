//! The test of canonical texts.

ghost use Rattle.std.specs.Prelude.{◌≡◌, ◌||◌};
ghost use Rattle.zs_keys.specs.Text.{is_star, is_double_star, is_canonical, is_chunk, may_follow, may_run};

use crate::chunks::Chunks;

/// Whether the second byte may stand behind the first in a chunk that is neither `*` nor `**`.
fn may_follow(before: u8, byte: u8) -> bool
    ensures { result ≡ may_follow before byte }
{
    match before {
        b'$' => byte == b'*',
        b'*' => !matches!(byte, b'*' | b'$' | b'#' | b'?'),
        _ => !matches!(byte, b'*' | b'#' | b'?'),
    }
}

/// Whether each byte of a chunk that is neither `*` nor `**` may stand behind the one before it.
fn may_run(chunk: &str) -> bool
    ensures { result ≡ may_run 0x2f chunk.now }
{
    let mut before = b'/';
    for &byte in chunk.as_bytes() {
        if !may_follow(before, byte) {
            return false;
        }
        before = byte;
    }
    before != b'$'
}

/// Whether a canonical text may have this chunk.
fn is_chunk(chunk: &str) -> bool
    ensures { result ≡ is_chunk chunk.now }
{
    match chunk {
        "" | "$*" => false,
        "*" | "**" => true,
        _ => may_run(chunk),
    }
}

/// Whether the chunk may not stand behind a chunk `**`.
fn is_stars(chunk: &str) -> bool
    ensures { result ≡ (is_double_star chunk.now || is_star chunk.now) }
{
    chunk == "**" || chunk == "*"
}

/// Whether the text is a canonical key expression.
#[tactic(auto, using(crate::proofs::CanonicalLemmas::canonical_steps))]
pub(crate) fn is_canonical(text: &str) -> bool
    ensures { result ≡ is_canonical text.now }
{
    let mut rest = Chunks::of(text);
    let mut behind_run = false;
    while let Some((chunk, next)) = rest.next_chunk() {
        if !is_chunk(chunk) {
            return false;
        }
        if behind_run && is_stars(chunk) {
            return false;
        }
        behind_run = chunk == "**";
        rest = next;
    }
    true
}
