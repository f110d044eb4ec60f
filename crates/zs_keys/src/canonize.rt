//! The canonical form of a text.

ghost use Rattle.std.specs.Prelude.{◌≡◌, ◌≤◌, ◌++◌, ◌∷◌, List, ℕ, [], length, MatchOption, IfOk, OnOk, string_bytes, codes, false, if◌then◌else◌};
ghost use Rattle.zs_keys.specs.Canonize.{squeezed_chunk, canonized_chunk, canonize, ordered_chunks};

use crate::chunks::Chunks;
use std::alloc::{AllocError, Global};

/// Where a `$*` and then another one begin with a `$` and these bytes: what stands behind the first.
fn behind_repeat(back: &str) -> Option<&str>
    ensures { MatchOption result (squeezed_chunk (0x24 ∷ back.now) ≡ 0x24 ∷ squeezed_chunk back.now)
        (λ behind. (squeezed_chunk (0x24 ∷ back.now) ≡ squeezed_chunk behind.now)
        × (length behind.now ≤ length back.now)) }
{
    let Some(behind) = back.strip_prefix('*') else {
        return None;
    };
    if !behind.starts_with("$*") {
        return None;
    }
    Some(behind)
}

/// Writes a `$`, unless it begins a repeat; returns what is left to be written of it and what stands behind it.
fn push_dollar<'a>(text: &mut String, back: &'a str) -> Result<&'a str, AllocError>
    ensures { IfOk result (λ rest. (string_bytes text.new ++ squeezed_chunk rest.now
        ≡ string_bytes text.old ++ squeezed_chunk (0x24 ∷ back.now))
        × (length rest.now ≤ length back.now)) }
{
    if let Some(behind) = behind_repeat(back) {
        return Ok(behind);
    }
    text.push_str("$")?;
    Ok(back)
}

/// A chunk in which each run of `$*` is one.
fn squeezed_chunk(alloc: Global, chunk: &str) -> Result<String, AllocError>
    ensures { IfOk result (λ text. string_bytes text ≡ squeezed_chunk chunk.now) }
{
    let mut text = String::new(alloc);
    let mut rest = chunk;
    while let Some((front, back)) = rest.split_once('$') {
        text.push_str(front)?;
        rest = push_dollar(&mut text, back)?;
    }
    text.push_str(rest)?;
    Ok(text)
}

/// The canonical form of one chunk.
fn canonized_chunk(alloc: Global, chunk: &str) -> Result<String, AllocError>
    ensures { IfOk result (λ text. string_bytes text ≡ canonized_chunk chunk.now) }
{
    let text = squeezed_chunk(alloc, chunk)?;
    if text.as_str() == "$*" {
        return String::from_str(alloc, "*");
    }
    Ok(text)
}

/// A canonical form of which some chunks are written.
#[derive(Drop)]
pub(crate) struct Writing {
    text: String,
    is_first: bool,
    has_run: bool,
}

impl Writing {
    ghost use Rattle.zs_keys.specs.Writing.{with_chunk, with_chunks, written_text};

    /// Writes a chunk, behind a `/` where it is not the first.
    fn push(&mut self, chunk: &str) -> Result<(), AllocError>
        ensures text { OnOk result ((cs : List (List ℕ)) → with_chunks self.new.is_first (string_bytes self.new.text) cs
            ≡ with_chunks self.old.is_first (string_bytes self.old.text) (chunk.now ∷ cs)) }
        ensures run { OnOk result (self.new.has_run ≡ self.old.has_run) }
    {
        if !self.is_first {
            self.text.push_str("/")?;
        }
        self.text.push_str(chunk)?;
        self.is_first = false;
        Ok(())
    }

    /// Takes the next chunk of the text: a `**` waits until no star follows.
    fn put(&mut self, chunk: &str) -> Result<(), AllocError>
        ensures { OnOk result ((cs : List (List ℕ)) → written_text self.new (ordered_chunks cs)
            ≡ written_text self.old (ordered_chunks (chunk.now ∷ cs))) }
    {
        if chunk == "**" {
            self.has_run = true;
            return Ok(());
        }
        if chunk == "*" {
            self.push(chunk)?;
            return Ok(());
        }
        self.put_run()?;
        self.push(chunk)?;
        Ok(())
    }

    /// Writes the `**` that waits, if one does.
    fn put_run(&mut self) -> Result<(), AllocError>
        ensures text { OnOk result ((cs : List (List ℕ)) → with_chunks self.new.is_first (string_bytes self.new.text) cs
            ≡ with_chunks self.old.is_first (string_bytes self.old.text)
            (if self.old.has_run then codes "**" ∷ cs else cs)) }
        ensures run { OnOk result (self.new.has_run ≡ false) }
    {
        if self.has_run {
            self.push("**")?;
            self.has_run = false;
        }
        Ok(())
    }
}

/// The canonical form of a text.
pub(crate) fn canonize(alloc: Global, text: &str) -> Result<String, AllocError>
    ensures { IfOk result (λ form. string_bytes form ≡ canonize text.now) }
{
    let mut form = Writing {
        text: String::new(alloc),
        is_first: true,
        has_run: false,
    };
    let mut rest = Chunks::of(text);
    while let Some((chunk, others)) = rest.next_chunk() {
        let chunk = canonized_chunk(alloc, chunk)?;
        form.put(chunk.as_str())?;
        rest = others;
    }
    form.put_run()?;
    Ok(form.text)
}
