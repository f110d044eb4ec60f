//! Sources and sinks that live in memory.

ghost use Rattle.std.specs.Prelude.{◌≡◌, ℕ, ◌+◌, ◌-◌, ◌^◌, ◌<◌, ◌≤◌, ◌↔◌, List, [], ◌++◌, length, take, drop, min, Some, IfOk, OnOk, OnErr, IsOk, IsErr, Contains, vec_len};
ghost use Rattle.zs_keys.specs.Stream.{HasRisen, PutsOn, HoldsNothing, count_after, pieces_after};
ghost use Rattle.zs_keys.specs.Memory.{IsFailingRead, IsFailingWrite, IsStuckWrite};

use crate::stream::{Failed, Sink, Source};
use std::alloc::Global;
use std::marker::Model;

/// Copies what fits, but no more than `most` bytes, from the front of one slice to the front of another.
fn copy_front(from: &[u8], most: usize, into: &mut [u8]) -> usize
    ensures within { (result ≤ length into.new) × (result ≤ length from.now) × (result ≤ most) }
    ensures same { take result into.new ≡ take result from.now }
    ensures none { result ≡ 0 → 0 < most → 0 < length into.new → from.now ≡ [] }
{
    let count = from.len().min(most).min(into.len());
    into[..count].copy_from_slice(&from[..count]);
    count
}

/// A count with one more, up to the last value.
fn one_more(count: u64) -> u64
    ensures { result ≡ count_after count 1 }
{
    count.saturating_add(1)
}

/// A source over bytes in memory that never fails.
#[derive(Drop)]
pub struct SteadySource {
    bytes: Vec<u8>,
    place: usize,
    reads: u64,
    pieces: u64,
}

impl Model for SteadySource {
    ghost use Rattle.std.specs.Prelude.{◌≤◌, drop, vec_len};
    ghost use Rattle.zs_keys.specs.Memory.{Holding};

    ghost Value = { Holding };

    ghost view = { λ s. record {
      left = drop s.place s.bytes.items;
      reads = s.reads;
      pieces = s.pieces;
    } };

    ghost invariant = { λ s. s.place ≤ vec_len s.bytes };
}

impl SteadySource {
    /// A source that holds these bytes.
    pub fn new(bytes: Vec<u8>) -> SteadySource
        ensures { result ≡ record { left = bytes.items; reads = 0; pieces = 0 } }
    {
        SteadySource {
            bytes,
            place: 0,
            reads: 0,
            pieces: 0,
        }
    }
}

impl Source for SteadySource {
    ghost left = { λ s. Some s.left };

    ghost reads = { λ s. s.reads };

    ghost pieces = { λ s. s.pieces };

    ghost faults = { λ _. 0 };

    /// Copies as many of the bytes that are left as fit. 0 is their end, or a buffer without room.
    fn read(&mut self, into: &mut [u8]) -> Result<usize, Failed>
        ensures steady { IsOk result }
        ensures within { IfOk result (λ count. count ≤ length into.new) }
        ensures taken { IfOk result (λ count. self.old.left ≡ take count into.new ++ self.new.left) }
        ensures ended { result ≡ Ok 0 → 0 < length into.new → HoldsNothing (Some self.old.left) }
        ensures counted { self.new.reads ≡ count_after self.old.reads 1 }
        ensures given { self.new.pieces ≡ pieces_after self.old.pieces result }
    {
        self.reads = one_more(self.reads);
        let count = copy_front(&self.bytes[self.place..], into.len(), into);
        self.place += count;
        if count > 0 {
            self.pieces = one_more(self.pieces);
        }
        Ok(count)
    }
}

/// A source over bytes in memory that gives few bytes at a time, and fails at the reads that it was told.
#[derive(Drop)]
pub struct MemorySource {
    bytes: Vec<u8>,
    place: usize,
    cut: usize,
    fail: Vec<u64>,
    reads: u64,
    pieces: u64,
    faults: u64,
}

impl Model for MemorySource {
    ghost use Rattle.std.specs.Prelude.{◌<◌, ◌≤◌, drop, vec_len};
    ghost use Rattle.zs_keys.specs.Memory.{Supply};

    ghost Value = { Supply };

    ghost view = { λ s. record {
      left = drop s.place s.bytes.items;
      cut = s.cut;
      fail = s.fail.items;
      reads = s.reads;
      pieces = s.pieces;
      faults = s.faults;
    } };

    ghost invariant = { λ s. (s.place ≤ vec_len s.bytes) × (0 < s.cut) };
}

impl MemorySource {
    /// A source that gives at most `cut` bytes per read, and fails at the reads whose numbers, from 1, are in `fail`.
    pub fn new(bytes: Vec<u8>, cut: usize, fail: Vec<u64>) -> MemorySource
        requires { 0 < cut }
        ensures { result ≡ record { left = bytes.items; cut = cut; fail = fail.items; reads = 0; pieces = 0; faults = 0 } }
    {
        MemorySource {
            bytes,
            place: 0,
            cut,
            fail,
            reads: 0,
            pieces: 0,
            faults: 0,
        }
    }
}

impl Source for MemorySource {
    ghost left = { λ s. Some s.left };

    ghost reads = { λ s. s.reads };

    ghost pieces = { λ s. s.pieces };

    ghost faults = { λ s. s.faults };

    /// Copies at most `cut` of the bytes that are left. A read that is listed in `fail` fails and takes none.
    fn read(&mut self, into: &mut [u8]) -> Result<usize, Failed>
        ensures within { IfOk result (λ count. (count ≤ length into.new) × (count ≤ self.old.cut)) }
        ensures taken { IfOk result (λ count. self.old.left ≡ take count into.new ++ self.new.left) }
        ensures ended { result ≡ Ok 0 → 0 < length into.new → HoldsNothing (Some self.old.left) }
        ensures kept { OnErr result (self.new.left ≡ self.old.left) }
        ensures later { self.old.faults ≤ self.new.faults }
        ensures calm { OnOk result (self.new.faults ≡ self.old.faults) }
        ensures failed { OnErr result (HasRisen self.old.faults self.new.faults) }
        ensures listed { IsErr result ↔ IsFailingRead self.old }
        ensures unlisted { ¬ IsFailingRead self.old → self.new.faults ≡ self.old.faults }
        ensures counted { self.new.reads ≡ count_after self.old.reads 1 }
        ensures given { self.new.pieces ≡ pieces_after self.old.pieces result }
        ensures same { (self.new.cut ≡ self.old.cut) × (self.new.fail ≡ self.old.fail) }
    {
        self.reads = one_more(self.reads);
        if self.fail.contains(&self.reads) {
            self.faults = one_more(self.faults);
            return Err(Failed);
        }
        let count = copy_front(&self.bytes[self.place..], self.cut, into);
        self.place += count;
        if count > 0 {
            self.pieces = one_more(self.pieces);
        }
        Ok(count)
    }
}

/// A sink into memory that takes few bytes at a time, and fails or stalls at the writes that it was told.
#[derive(Drop)]
pub struct MemorySink {
    bytes: Vec<u8>,
    cut: usize,
    fail: Vec<u64>,
    stuck: Vec<u64>,
    writes: u64,
    faults: u64,
    short: u64,
}

impl Model for MemorySink {
    ghost use Rattle.std.specs.Prelude.{◌<◌};
    ghost use Rattle.zs_keys.specs.Memory.{Store};

    ghost Value = { Store };

    ghost view = { λ s. record {
      written = s.bytes.items;
      cut = s.cut;
      fail = s.fail.items;
      stuck = s.stuck.items;
      writes = s.writes;
      faults = s.faults;
      short = s.short;
    } };

    ghost invariant = { λ s. 0 < s.cut };
}

impl MemorySink {
    /// An empty sink that takes at most `cut` bytes per write. Of the writes, numbered from 1, those in `fail` fail, and
    /// those in `stuck` take nothing; a number in both fails.
    pub fn new(alloc: Global, cut: usize, fail: Vec<u64>, stuck: Vec<u64>) -> MemorySink
        requires { 0 < cut }
        ensures { result ≡ record {
          written = [];
          cut = cut;
          fail = fail.items;
          stuck = stuck.items;
          writes = 0;
          faults = 0;
          short = 0;
        } }
    {
        MemorySink {
            bytes: Vec::new(alloc),
            cut,
            fail,
            stuck,
            writes: 0,
            faults: 0,
            short: 0,
        }
    }

    /// What it took.
    pub fn bytes(&self) -> &[u8]
        ensures { result.now ≡ self.now.written }
    {
        self.bytes.as_slice()
    }

    /// How many writes failed for want of memory, up to the last value.
    pub fn short(&self) -> u64
        ensures { result ≡ self.now.short }
    {
        self.short
    }
}

impl Sink for MemorySink {
    ghost written = { λ s. Some s.written };

    ghost faults = { λ s. s.faults };

    /// Takes at most `cut` bytes. It fails where it was told to or has no memory, and a write in `stuck` takes none.
    fn write(&mut self, piece: &[u8]) -> Result<usize, Failed>
        ensures within { IfOk result (λ count. (count ≤ length piece.now) × (count ≤ self.old.cut)) }
        ensures taken { IfOk result (λ count. PutsOn (Some self.old.written) (take count piece.now) (Some self.new.written)) }
        ensures kept { OnErr result (PutsOn (Some self.old.written) [] (Some self.new.written)) }
        ensures later { self.old.faults ≤ self.new.faults }
        ensures calm { IfOk result (λ count. 0 < count → self.new.faults ≡ self.old.faults) }
        ensures failed { OnErr result (HasRisen self.old.faults self.new.faults) }
        ensures stuck { result ≡ Ok 0 → 0 < length piece.now → HasRisen self.old.faults self.new.faults }
        ensures fails_listed { IsFailingWrite self.old → IsErr result }
        ensures stuck_listed { ¬ IsFailingWrite self.old → IsStuckWrite self.old → result ≡ Ok 0 }
        ensures unlisted { ¬ IsFailingWrite self.old → ¬ IsStuckWrite self.old → ¬ HasRisen self.old.short self.new.short
            → self.new.faults ≡ self.old.faults }
        ensures counted { self.new.writes ≡ count_after self.old.writes 1 }
        ensures never_short { OnOk result (self.new.short ≡ self.old.short) }
        ensures listed_short { IsFailingWrite self.old → self.new.short ≡ self.old.short }
        ensures short { ¬ IsFailingWrite self.old → OnErr result (self.new.short ≡ count_after self.old.short 1) }
        ensures same { (self.new.cut ≡ self.old.cut) × (self.new.fail ≡ self.old.fail) × (self.new.stuck ≡ self.old.stuck) }
    {
        self.writes = one_more(self.writes);
        if self.fail.contains(&self.writes) {
            self.faults = one_more(self.faults);
            return Err(Failed);
        }
        if self.stuck.contains(&self.writes) {
            self.faults = one_more(self.faults);
            return Ok(0);
        }
        let count = piece.len().min(self.cut);
        if self.bytes.extend_from_slice(&piece[..count]).is_err() {
            self.short = one_more(self.short);
            self.faults = one_more(self.faults);
            return Err(Failed);
        }
        Ok(count)
    }
}
