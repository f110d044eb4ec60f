//! How texts of parameters are trimmed and made anew.

ghost use Rattle.std.specs.Prelude.{◌≡◌, ◌-◌, ℕ, ◌∷◌, [], ◌++◌, length, IfOk, OnOk, string_bytes, IsCharBoundary};
ghost use Rattle.std.specs.List.{suffix_len, flat_map};
ghost use Rattle.zs_wire.specs.Parameters.{is_end_sign, trimmed_text, other_pairs, pairs, piece_of, joined_text, text_with, text_with_all};

use crate::parameter_pairs::ParameterPairs;
use std::alloc::{AllocError, Global};

/// Whether a text loses this sign at its end.
fn is_end_sign(byte: u8) -> bool
    ensures { result ≡ is_end_sign byte }
{
    matches!(byte, b';' | b'=' | b'|')
}

/// How many bytes of a text stand before the signs at its end.
#[tactic(auto, using(crate::proofs::Trimming::trimming))]
fn trimmed_len(text: &[u8]) -> usize
    ensures len { result ≡ length text.now - suffix_len is_end_sign text.now }
    ensures boundary { IsCharBoundary text.now result }
{
    let mut end = text.len();
    'signs: while end > 0 && is_end_sign(text[end - 1]) {
        end -= 1;
    }
    end
}

/// The text without the signs at its end.
pub(crate) fn trimmed(text: &str) -> &str
    ensures { result.now ≡ trimmed_text text.now }
{
    let (front, _) = text.split_at(trimmed_len(text.as_bytes()));
    front
}

/// Writes a pair behind a text.
fn append_pair(text: &mut String, name: &str, value: &str) -> Result<(), AllocError>
    ensures { OnOk result (string_bytes text.new ≡ string_bytes text.old ++ piece_of (name.now, value.now)) }
{
    text.push_str(name)?;
    if !value.is_empty() {
        text.push('=')?;
        text.push_str(value)?;
    }
    Ok(())
}

/// The pairs of a text with other names, each with a `;` behind it.
#[tactic(auto, using(crate::proofs::Joining::keeping))]
fn without(alloc: Global, text: &str, name: &str) -> Result<String, AllocError>
    ensures { IfOk result (λ made. string_bytes made
        ≡ flat_map (λ pair. piece_of pair ++ (0x3b ∷ [])) (other_pairs name.now text.now)) }
{
    let mut made = String::new(alloc);
    'pairs: for (other, value) in ParameterPairs::of(text) {
        if other != name {
            append_pair(&mut made, other, value)?;
            made.push(';')?;
        }
    }
    Ok(made)
}

/// The pairs of a text with other names, and then this pair.
#[tactic(auto, using(crate::proofs::Joining::joining))]
pub(crate) fn with_pair(
    alloc: Global,
    text: &str,
    name: &str,
    value: &str,
) -> Result<String, AllocError>
    ensures { IfOk result (λ made. string_bytes made ≡ text_with name.now value.now text.now) }
{
    let mut made = without(alloc, text, name)?;
    append_pair(&mut made, name, value)?;
    Ok(made)
}

/// The pairs of a text with other names.
#[tactic(auto, using(crate::proofs::Joining::joining))]
pub(crate) fn other_text(alloc: Global, text: &str, name: &str) -> Result<String, AllocError>
    ensures { IfOk result (λ made. string_bytes made ≡ joined_text (other_pairs name.now text.now)) }
{
    let mut made = without(alloc, text, name)?;
    if !made.is_empty() {
        made.truncate(made.len() - 1);
    }
    Ok(made)
}

/// The text after these pairs were inserted, one behind the other.
pub(crate) fn with_pairs(
    alloc: Global,
    text: &str,
    list: ParameterPairs<'_>,
) -> Result<String, AllocError>
    ensures { IfOk result (λ made. string_bytes made ≡ text_with_all list.entry text.now) }
{
    let mut made = String::from_str(alloc, text)?;
    'pairs: for (name, value) in list {
        made = with_pair(alloc, made.as_str(), name, value)?;
    }
    Ok(made)
}
