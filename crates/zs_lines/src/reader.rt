//! The reader that cuts what a source gives into lines, the lines, and why there is no next one.
ghost use Rattle.std.specs.Prelude.{◌≡◌, ℕ, ◌≢◌, ◌+◌, ◌-◌, ◌<◌, ◌≤◌, ◌==◌, false, true, List, [], ◌++◌, length, take, drop, Some, None, is_some, IfOk, IfErr, OnOk, OnErr, IfSome, IfNone, OnSome};
ghost use Rattle.std.specs.List.{position};
ghost use Rattle.zs_keys.specs.Stream.{HasRisen, TakesOff, count_after};
ghost use Rattle.zs_lines.specs.Reading.{Answers, GivesLine, HoldsNoLine, IsAtEnd, IsSpent, IsTooLong, MayFollow, Reads, work};

use crate::held::Held;
use std::alloc::{AllocError, Global};
use std::marker::Model;
use zs_keys::Source;

/// A line of a script, without its line feed.
#[derive(Drop)]
pub struct Line {
    /// Which line of the input it is, from 1.
    pub number: u64,
    /// Its bytes.
    pub bytes: Vec<u8>,
}

/// Why there is no next line.
#[derive(Clone, Copy, Debug, PartialEq, Eq)]
pub enum LineError {
    /// The source failed.
    ReadFault,
    /// The line of this number has more bytes than a line may have.
    LineTooLong(u64),
    /// As many reads as there may be have given bytes.
    OutOfTurns,
    /// There was no memory, or no number, for the line.
    NoMemory,
}

impl From<AllocError> for LineError {
    ghost use Rattle.zs_lines.specs.declared.reader.LineError.{LineError};

    ghost from_gives = { λ _ e. e ≡ LineError.NoMemory };

    /// Want of memory, as why there is no next line.
    fn from(_error: AllocError) -> LineError {
        LineError::NoMemory
    }
}

/// Cuts what a source gives into lines, however it is given.
///
/// It reads no more than the next line needs, a few thousand bytes at a time. After an error it isn't used again.
#[derive(Drop)]
pub struct LineReader {
    alloc: Global,
    held: Held,
    ended: bool,
    turns: u64,
    given: u64,
    line_max: u32,
}

impl Model for LineReader {
    ghost use Rattle.zs_lines.specs.Reading.{Reading};

    ghost Value = { Reading };

    ghost view = { λ r. record {
      held = r.held;
      ended = r.ended;
      turns = r.turns;
      given = r.given;
      line_max = r.line_max;
    } };
}

impl LineReader {
    /// A reader that gives lines of at most `line_max` bytes, and makes no read after `turns` that gave bytes.
    pub fn new(alloc: Global, line_max: u32, turns: u64) -> LineReader
        ensures { result ≡ record { held = []; ended = false; turns = turns; given = 0; line_max = line_max } }
    {
        LineReader {
            alloc,
            held: Held::new(alloc),
            ended: false,
            turns,
            given: 0,
            line_max,
        }
    }

    /// How many bytes were read and not given yet.
    fn held_len(&self) -> usize
        ensures { result ≡ length self.now.held }
    {
        self.held.len()
    }

    /// Where the next line ends, if a line feed is held. What was searched in vain isn't searched again.
    fn find_line_feed(&mut self) -> Option<usize>
        ensures place { result ≡ position (λ b. b == 10) self.old.held }
        ensures same { self.new ≡ self.old }
    {
        self.held.find_line_feed()
    }

    /// Whether a whole line was read and not given yet, so that [`next`](LineReader::next) gives it without a read.
    pub fn holds_line(&mut self) -> bool
        ensures answer { result ≡ is_some (position (λ b. b == 10) self.old.held) }
        ensures same { self.new ≡ self.old }
    {
        self.find_line_feed().is_some()
    }

    /// The number of the next line.
    fn next_number(&self) -> Result<u64, LineError>
        ensures ok { IfOk result (λ number. number ≡ self.now.given + 1) }
        ensures err { IfErr result (λ error. error ≡ LineError.NoMemory) }
    {
        self.given.checked_add(1).ok_or(LineError::NoMemory)
    }

    /// The first `count` bytes as the next line. They are taken off together with the `gap` bytes behind them.
    fn give(&mut self, count: usize, gap: usize) -> Result<Line, LineError>
        requires { count + gap ≤ length self.old.held }
        ensures bytes { IfOk result (λ line. line.bytes.items ≡ take count self.old.held) }
        ensures number { IfOk result (λ line. line.number ≡ self.old.given + 1) }
        ensures short { OnOk result (count ≤ self.old.line_max) }
        ensures after { OnOk result (self.new ≡ record self.old { held = drop (count + gap) self.old.held; given = self.old.given + 1 }) }
        ensures err { OnErr result (self.new ≡ self.old) }
        ensures too_long { (n : ℕ) → result ≡ Err (LineError.LineTooLong n) → (n ≡ self.old.given + 1) × (self.old.line_max < count) }
        ensures other { (result ≢ Err LineError.OutOfTurns) × (result ≢ Err LineError.ReadFault) }
    {
        let number = self.next_number()?;
        if count > self.line_max as usize {
            return Err(LineError::LineTooLong(number));
        }
        let bytes = self.held.take(self.alloc, count, gap)?;
        self.given = number;
        Ok(Line { number, bytes })
    }

    /// The line that ends at the line feed which is at this place.
    fn give_line(&mut self, place: usize) -> Result<Option<Line>, LineError>
        requires { Some place ≡ position (λ b. b == 10) self.old.held }
        ensures answer { Answers self.old self.new [] result }
        ensures reads { Reads self.old self.new [] }
        ensures same { (self.new.turns ≡ self.old.turns) × (self.new.ended ≡ self.old.ended) }
        ensures work { IfOk result (λ found. OnSome found (work self.new < work self.old)) }
        ensures other { (result ≢ Err LineError.OutOfTurns) × (result ≢ Err LineError.ReadFault) }
    {
        Ok(Some(self.give(place, 1)?))
    }

    /// What is held when all was read: the last line, or nothing.
    fn give_rest(&mut self) -> Result<Option<Line>, LineError>
        requires ended { self.old.ended ≡ true }
        requires whole { None ≡ position (λ b. b == 10) self.old.held }
        ensures answer { Answers self.old self.new [] result }
        ensures reads { Reads self.old self.new [] }
        ensures same { (self.new.turns ≡ self.old.turns) × (self.new.ended ≡ self.old.ended) }
        ensures work { IfOk result (λ found. OnSome found (work self.new < work self.old)) }
        ensures other { (result ≢ Err LineError.OutOfTurns) × (result ≢ Err LineError.ReadFault) }
    {
        let count = self.held_len();
        if count == 0 {
            return Ok(None);
        }
        Ok(Some(self.give(count, 0)?))
    }

    /// Why a rest without a line feed that is too long is no line.
    fn too_long(&self) -> LineError
        requires whole { None ≡ position (λ b. b == 10) self.now.held }
        requires long { self.now.line_max < length self.now.held }
        ensures answer { Answers self.now self.now [] (Err result) }
        ensures other { (result ≢ LineError.OutOfTurns) × (result ≢ LineError.ReadFault) }
    {
        match self.next_number() {
            Ok(number) => LineError::LineTooLong(number),
            Err(_) => LineError::NoMemory,
        }
    }

    /// Reads once.
    fn fill<S: Source>(&mut self, source: &mut S) -> Result<(), LineError>
        requires { self.old.ended ≡ false }
        ensures took { (gave : List ℕ) × TakesOff (S.left source.old) gave (S.left source.new)
            × Reads self.old self.new gave × (self.new.held ≡ self.old.held ++ gave) }
        ensures at_end { self.new.ended ≡ true → IsSpent (S.left source.old) (S.left source.new) }
        ensures same { (self.new.given ≡ self.old.given) × (self.new.line_max ≡ self.old.line_max) }
        ensures work { OnOk result (work self.new < work self.old) }
        ensures pieces { S.pieces source.new ≡ count_after (S.pieces source.old) (self.old.turns - self.new.turns) }
        ensures reads { OnOk result (self.new.ended ≡ false → S.reads source.new ≡ count_after (S.reads source.old) (self.old.turns - self.new.turns)) }
        ensures seen { OnOk result (self.new.ended ≡ true → S.reads source.new ≡ count_after (S.reads source.old) (self.old.turns - self.new.turns + 1)) }
        ensures out_of_turns { result ≡ Err LineError.OutOfTurns → self.old.turns ≡ 0 }
        ensures err { OnErr result (self.new ≡ self.old) }
        ensures unread { result ≢ Err LineError.ReadFault → OnErr result (source.new ≡ source.old) }
        ensures read_fault { result ≡ Err LineError.ReadFault → HasRisen (S.faults source.old) (S.faults source.new) }
        ensures other { (n : ℕ) → result ≢ Err (LineError.LineTooLong n) }
        ensures later { S.faults source.old ≤ S.faults source.new }
        ensures calm { result ≢ Err LineError.ReadFault → S.faults source.new ≡ S.faults source.old }
    {
        if self.turns == 0 {
            return Err(LineError::OutOfTurns);
        }
        if self.held.read_from(source)? == 0 {
            self.ended = true;
        } else {
            self.turns -= 1;
        }
        Ok(())
    }

    /// The next line of the bytes that the source gives, without its line feed; `None` when all were given, and ever
    /// after. A last rest without a line feed is a line. Where a whole line is held, nothing is read.
    ///
    /// # Errors
    ///
    /// `ReadFault` where the source failed, `LineTooLong` where the line has more bytes than it may have, `OutOfTurns` where
    /// no read that gives bytes is left, and no whole line is held nor a rest that is too long already, and `NoMemory`. No
    /// byte that was read is lost.
    pub fn next<S: Source>(&mut self, source: &mut S) -> Result<Option<Line>, LineError>
        ensures answer { (gave : List ℕ) × TakesOff (S.left source.old) gave (S.left source.new)
            × Reads self.old self.new gave × Answers self.old self.new gave result }
        ensures at_end { IsAtEnd self.old (S.left source.old) → self.new.ended ≡ true → IsSpent (S.left source.old) (S.left source.new) }
        ensures out_of_turns { result ≡ Err LineError.OutOfTurns → HoldsNoLine self.new }
        ensures still { self.old.ended ≡ true → source.new ≡ source.old }
        ensures held { is_some (position (λ b. b == 10) self.old.held) ≡ true → source.new ≡ source.old }
        ensures pieces { S.pieces source.new ≡ count_after (S.pieces source.old) (self.old.turns - self.new.turns) }
        ensures reads { result ≢ Err LineError.ReadFault → self.new.ended ≡ false
            → S.reads source.new ≡ count_after (S.reads source.old) (self.old.turns - self.new.turns) }
        ensures seen { result ≢ Err LineError.ReadFault → self.old.ended ≡ false → self.new.ended ≡ true
            → S.reads source.new ≡ count_after (S.reads source.old) (self.old.turns - self.new.turns + 1) }
        ensures read_fault { result ≡ Err LineError.ReadFault → HasRisen (S.faults source.old) (S.faults source.new) }
        ensures later { S.faults source.old ≤ S.faults source.new }
        ensures calm { result ≢ Err LineError.ReadFault → S.faults source.new ≡ S.faults source.old }
        ensures work { IfOk result (λ found. OnSome found (work self.new < work self.old)) }
    {
        'reads: loop {
            if let Some(place) = self.find_line_feed() {
                return self.give_line(place);
            }
            if self.held_len() > self.line_max as usize {
                return Err(self.too_long());
            }
            if self.ended {
                break;
            }
            self.fill(source)?;
        }
        self.give_rest()
    }
}
