//! Texts as bytes whose order brings those together that begin with the same chunks.

ghost use Rattle.std.specs.Prelude.{◌≡◌, ◌++◌, ◌∷◌, IfOk, OnOk, [], List, ℕ};
ghost use Rattle.zs_tree.specs.Code.{is_rough, mark_of, onto_chunk, coded, code_of, code_cmp, IsBy};
ghost use Rattle.zs_tree.specs.Chunks.{chunks_left};

use crate::chunks::Chunks;
use std::alloc::{AllocError, Global};
use std::cmp::Ordering;

/// The mark of a chunk with a wild sign in it.
pub(crate) const ROUGH: u8 = 1;

/// The mark of a chunk without one.
pub(crate) const PLAIN: u8 = 2;

/// Where a code stands beside those that begin with a given chunk.
#[derive(Clone, Copy)]
pub(crate) enum Beside<'a> {
    Before,
    /// It is one of them; this is what follows the chunk.
    Within(&'a [u8]),
    Behind,
}

/// Whether a chunk has a wild sign in it.
pub(crate) fn is_rough(chunk: &str) -> bool
    ensures { result ≡ is_rough chunk.now }
{
    chunk
        .as_bytes()
        .iter()
        .any(|byte| *byte == b'*' || *byte == b'$')
}

/// The mark of a chunk.
pub(crate) fn mark_of(chunk: &str) -> u8
    ensures { result ≡ mark_of chunk.now }
{
    if is_rough(chunk) { ROUGH } else { PLAIN }
}

/// The code of a text.
pub(crate) fn code_of(alloc: Global, text: &str) -> Result<Vec<u8>, AllocError>
    ensures { IfOk result (λ code. code.items ≡ code_of text.now) }
{
    let mut code = Vec::new(alloc);
    let mut left = Chunks::of(text);
    while let Some((chunk, rest)) = left.next_chunk() {
        push_chunk(&mut code, chunk)?;
        left = rest;
    }
    Ok(code)
}

/// Puts a chunk behind a code: its mark, its bytes and a `/`. Without memory a part of it may stand there.
fn push_chunk(code: &mut Vec<u8>, chunk: &str) -> Result<(), AllocError>
    ensures { OnOk result (code.new.items ≡ code.old.items ++ onto_chunk (mark_of chunk.now) chunk.now []) }
{
    code.push(mark_of(chunk))?;
    code.extend_from_slice(chunk.as_bytes())?;
    Ok(code.push(b'/')?)
}

/// Where a code stands beside those that begin with that chunk behind that mark.
pub(crate) fn beside_chunk<'a>(code: &'a [u8], mark: u8, chunk: &str) -> Beside<'a>
    ensures { IsBy (onto_chunk mark chunk.now) code.now result }
{
    let Some((first, rest)) = code.split_first() else {
        return Beside::Before;
    };
    match (*first).cmp(&mark) {
        Ordering::Less => Beside::Before,
        Ordering::Equal => beside_bytes(rest, chunk.as_bytes()),
        Ordering::Greater => Beside::Behind,
    }
}

/// The same behind the marks.
fn beside_bytes<'a>(code: &'a [u8], chunk: &[u8]) -> Beside<'a>
    ensures { IsBy (λ rest. chunk.now ++ (0x2f ∷ rest)) code.now result }
{
    let Some(rest) = code.strip_prefix(chunk) else {
        return match code.cmp(&chunk) {
            Ordering::Less => Beside::Before,
            _ => Beside::Behind,
        };
    };
    beside_slash(rest)
}

/// The same behind the bytes of the chunk.
fn beside_slash(code: &[u8]) -> Beside<'_>
    ensures { IsBy (λ rest. 0x2f ∷ rest) code.now result }
{
    let Some((first, rest)) = code.split_first() else {
        return Beside::Before;
    };
    match (*first).cmp(&b'/') {
        Ordering::Less => Beside::Before,
        Ordering::Equal => Beside::Within(rest),
        Ordering::Greater => Beside::Behind,
    }
}

/// The code of a text, compared with a given one.
pub(crate) fn cmp_code(code: &[u8], text: &str) -> Ordering
    ensures { result ≡ code_cmp code.now (code_of text.now) }
{
    let mut code = code;
    let mut left = Chunks::of(text);
    while let Some((chunk, rest)) = left.next_chunk() {
        match beside_chunk(code, mark_of(chunk), chunk) {
            Beside::Before => return Ordering::Less,
            Beside::Behind => return Ordering::Greater,
            Beside::Within(behind) => code = behind,
        }
        left = rest;
    }
    if code.is_empty() {
        Ordering::Equal
    } else {
        Ordering::Greater
    }
}

/// The code behind its first chunk, which is this one.
pub(crate) fn behind_chunk<'a>(code: &'a [u8], chunk: &str) -> &'a [u8]
    ensures { (rest : List ℕ) → code.now ≡ onto_chunk (mark_of chunk.now) chunk.now rest → result.now ≡ rest }
{
    match beside_chunk(code, mark_of(chunk), chunk) {
        Beside::Within(rest) => rest,
        _ => &[],
    }
}

/// The part of a code before the part that is left.
pub(crate) fn before<'a>(code: &'a [u8], left: &[u8]) -> &'a [u8]
    ensures { (front : List ℕ) → code.now ≡ front ++ left.now → result.now ≡ front }
{
    &code[..code.len().saturating_sub(left.len())]
}
