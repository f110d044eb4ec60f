//! The bytes that a reader of lines holds.

ghost use Rattle.std.specs.Prelude.{◌≡◌, ℕ, ◌+◌, ◌≤◌, ◌==◌, ◌⊎◌, List, [], ◌++◌, length, take, drop, IfOk, IfErr, OnOk, OnErr, vec_len};
ghost use Rattle.std.specs.List.{position};
ghost use Rattle.zs_keys.specs.Stream.{HasRisen, TakesOff, count_after, pieces_after};
ghost use Rattle.zs_lines.specs.Reading.{GivesCount, IsSpent};

use crate::bytes::{behind, position_of};
use crate::reader::LineError;
use std::alloc::{AllocError, Global};
use std::marker::Model;
use zs_keys::Source;

/// How many bytes one read asks for.
const PIECE: usize = 16384;

/// Bytes that were read and not taken yet. Contracts see them as a list.
///
/// They begin at `start`, so that taking a line moves nothing; those before `searched` hold no line feed, so that a
/// long line that comes in small pieces is searched once.
#[derive(Drop)]
pub(crate) struct Held {
    bytes: Vec<u8>,
    start: usize,
    searched: usize,
}

impl Model for Held {
    ghost use Rattle.std.specs.Prelude.{ℕ, ◌+◌, ◌≤◌, ◌==◌, List, drop, vec_len};
    ghost use Rattle.std.specs.List.{position_or_len};

    ghost Value = { List ℕ };

    ghost view = { λ h. drop h.start h.bytes.items };

    ghost invariant = { λ h. (h.start ≤ h.searched) × (h.searched ≤ vec_len h.bytes)
        × (h.searched ≤ h.start + position_or_len (λ b. b == 10) (drop h.start h.bytes.items)) };
}

impl Held {
    /// Nothing is held yet. Memory is asked for by the first read.
    pub(crate) fn new(alloc: Global) -> Held
        ensures { result ≡ [] }
    {
        Held {
            bytes: Vec::new(alloc),
            start: 0,
            searched: 0,
        }
    }

    /// How many bytes were read and not taken yet.
    pub(crate) fn len(&self) -> usize
        ensures { result ≡ length self.now }
    {
        self.bytes.len() - self.start
    }

    /// Where the first line feed is.
    pub(crate) fn find_line_feed(&mut self) -> Option<usize>
        ensures place { result ≡ position (λ b. b == 10) self.old }
        ensures same { self.new ≡ self.old }
    {
        let Some(place) = position_of(behind(&self.bytes, self.searched), b'\n') else {
            self.searched = self.bytes.len();
            return None;
        };
        Some(self.searched - self.start + place)
    }

    /// A copy of the first `count` bytes, which are taken off together with the `gap` bytes behind them.
    pub(crate) fn take(
        &mut self,
        alloc: Global,
        count: usize,
        gap: usize,
    ) -> Result<Vec<u8>, AllocError>
        requires { count + gap ≤ length self.old }
        ensures bytes { IfOk result (λ line. line.items ≡ take count self.old) }
        ensures after { OnOk result (self.new ≡ drop (count + gap) self.old) }
        ensures err { OnErr result (self.new ≡ self.old) }
    {
        let line = Vec::from_slice(alloc, &self.bytes[self.start..self.start + count])?;
        self.start += count + gap;
        self.searched = self.start;
        Ok(line)
    }

    /// Reads once, behind the bytes, and returns how many came. For want of memory nothing is read.
    pub(crate) fn read_from<S: Source>(&mut self, source: &mut S) -> Result<usize, LineError>
        ensures took { (gave : List ℕ) × TakesOff (S.left source.old) gave (S.left source.new)
            × (self.new ≡ self.old ++ gave) × GivesCount gave result }
        ensures ended { result ≡ Ok 0 → IsSpent (S.left source.old) (S.left source.new) }
        ensures pieces { S.pieces source.new ≡ pieces_after (S.pieces source.old) result }
        ensures reads { OnOk result (S.reads source.new ≡ count_after (S.reads source.old) 1) }
        ensures unread { result ≡ Err LineError.NoMemory → source.new ≡ source.old }
        ensures few { IfOk result (λ count. count ≤ 16384) }
        ensures err { IfErr result (λ error. (error ≡ LineError.ReadFault) ⊎ (error ≡ LineError.NoMemory)) }
        ensures read_fault { result ≡ Err LineError.ReadFault → HasRisen (S.faults source.old) (S.faults source.new) }
        ensures later { S.faults source.old ≤ S.faults source.new }
        ensures calm { OnOk result (S.faults source.new ≡ S.faults source.old) }
    {
        self.close_up();
        self.bytes.reserve(PIECE)?;
        let mut piece = [0u8; PIECE];
        let Ok(count) = source.read(&mut piece) else {
            return Err(LineError::ReadFault);
        };
        self.bytes.extend_from_slice(&piece[..count])?;
        Ok(count)
    }

    /// Moves the bytes to the front of their memory.
    fn close_up(&mut self)
        ensures { self.new ≡ self.old }
    {
        self.bytes.rotate_left(self.start);
        let count = self.bytes.len() - self.start;
        self.bytes.truncate(count);
        self.searched -= self.start;
        self.start = 0;
    }
}
