//! A payload of all that a source gives.

ghost use Rattle.std.specs.Prelude.{◌≡◌, ◌≢◌, ℕ, ◌+◌, ◌<◌, ◌≤◌, Bool, true, List, [], length, Some, IfOk};
ghost use Rattle.zs_bytes.specs.Loading.{ReadsOn};
ghost use Rattle.zs_bytes.specs.Payload.{one_slice};
ghost use Rattle.zs_keys.specs.Stream.{HasRisen, count_after};

use crate::payload::ZBytes;
use std::alloc::{AllocError, Global};
use zs_keys::Source;

/// How many bytes one read asks for.
const PIECE: usize = 4096;

/// Why a source was not read to its end.
#[derive(Clone, Copy, Debug, PartialEq, Eq)]
pub enum ReadError {
    /// The source failed.
    ReadFault,
    /// As many reads as there may be have given bytes.
    OutOfTurns,
    /// There was no memory for the bytes.
    NoMemory,
}

impl From<AllocError> for ReadError {
    ghost use Rattle.zs_bytes.specs.declared.loading.ReadError.{ReadError};

    ghost from_gives = { λ _ e. e ≡ ReadError.NoMemory };

    /// Want of memory is `NoMemory`, so that `?` hands it on.
    fn from(_error: AllocError) -> ReadError {
        ReadError::NoMemory
    }
}

/// Reads once, and puts what was read behind the bytes. False is the end of the source.
fn read_once<S: Source>(source: &mut S, bytes: &mut Vec<u8>, turns: u64) -> Result<bool, ReadError>
    ensures read { IfOk result (λ more. (left : List ℕ) → S.left source.old ≡ Some left
        → (now : List ℕ) × (S.left source.new ≡ Some now) × ReadsOn bytes.old.items left bytes.new.items now more) }
    ensures turns { result ≡ Ok true → 0 < turns }
    ensures reads { result ≡ Ok true → S.reads source.new ≡ count_after (S.reads source.old) 1 }
    ensures pieces { result ≡ Ok true → S.pieces source.new ≡ count_after (S.pieces source.old) 1 }
    ensures most { S.pieces source.new ≤ S.pieces source.old + turns }
    ensures read_fault { result ≡ Err ReadError.ReadFault → HasRisen (S.faults source.old) (S.faults source.new) }
    ensures out_of_turns { result ≡ Err ReadError.OutOfTurns → (turns ≡ 0) × (S.left source.new ≡ S.left source.old)
        × (S.reads source.new ≡ S.reads source.old) × (S.pieces source.new ≡ S.pieces source.old) }
    ensures later { S.faults source.old ≤ S.faults source.new }
{
    if turns == 0 {
        return Err(ReadError::OutOfTurns);
    }
    let mut piece = [0u8; PIECE];
    let Ok(count) = source.read(&mut piece) else {
        return Err(ReadError::ReadFault);
    };
    bytes.extend_from_slice(&piece[..count])?;
    Ok(count > 0)
}

/// All that a source gives up to its end, in at most `turns` reads that give bytes.
///
/// # Errors
///
/// `OutOfTurns` where `turns` reads were made, and each gave bytes, so that none saw the end.
pub fn from_reader<S: Source>(
    alloc: Global,
    source: &mut S,
    turns: u64,
) -> Result<ZBytes, ReadError>
    ensures whole { IfOk result (λ made. (left : List ℕ) → S.left source.old ≡ Some left
        → (made ≡ one_slice left) × (S.left source.new ≡ Some [])) }
    ensures read_fault { result ≡ Err ReadError.ReadFault → HasRisen (S.faults source.old) (S.faults source.new) }
    ensures out_of_turns { result ≡ Err ReadError.OutOfTurns → (S.reads source.new ≡ count_after (S.reads source.old) turns)
        × (S.pieces source.new ≡ count_after (S.pieces source.old) turns) }
    ensures taken { result ≡ Err ReadError.OutOfTurns → (left : List ℕ) → S.left source.old ≡ Some left
        → (now : List ℕ) × (S.left source.new ≡ Some now) × (length now + turns ≤ length left) }
    ensures most { S.pieces source.new ≤ S.pieces source.old + turns }
    ensures later { S.faults source.old ≤ S.faults source.new }
{
    let mut bytes = Vec::new(alloc);
    let mut turns_left = turns;
    'reads: while read_once(source, &mut bytes, turns_left)? {
        turns_left -= 1;
    }
    Ok(ZBytes::from_vec(alloc, bytes)?)
}
