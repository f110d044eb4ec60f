//! The edge to the system: std's readers and writers as sources and sinks. They tell nothing of what passes.

ghost use Rattle.std.specs.Prelude.{◌≡◌, ◌≤◌, ◌<◌, IfOk, OnOk, OnErr, length};
ghost use Rattle.zs_keys.specs.Stream.{HasRisen, count_after, pieces_after};

use std::io::{Read, Write};
use zs_keys::{Failed, Sink, Source};

/// A reader of std as a source. Each error of it is a fault.
#[derive(Drop)]
pub struct StdSource<R: Read> {
    reader: R,
    reads: u64,
    pieces: u64,
    faults: u64,
}

impl<R: Read> StdSource<R> {
    /// A source over a reader, with no read and no fault yet.
    pub fn new(reader: R) -> StdSource<R>
        ensures { (result.reads ≡ 0) × (result.pieces ≡ 0) × (result.faults ≡ 0) }
    {
        StdSource {
            reader,
            reads: 0,
            pieces: 0,
            faults: 0,
        }
    }
}

impl<R: Read> Source for StdSource<R> {
    ghost reads = { λ s. s.reads };

    ghost pieces = { λ s. s.pieces };

    ghost faults = { λ s. s.faults };

    /// Reads from std's reader. It counts each read, each that gives bytes, and each error, which is a fault.
    /// A count of 0 is the end, where there was room.
    fn read(&mut self, into: &mut [u8]) -> Result<usize, Failed>
        ensures within { IfOk result (λ count. count ≤ length into.new) }
        ensures counted { self.new.reads ≡ count_after self.old.reads 1 }
        ensures given { self.new.pieces ≡ pieces_after self.old.pieces result }
        ensures later { self.old.faults ≤ self.new.faults }
        ensures calm { OnOk result (self.new.faults ≡ self.old.faults) }
        ensures failed { OnErr result (HasRisen self.old.faults self.new.faults) }
    {
        self.reads = one_more(self.reads);
        let Ok(count) = self.reader.read(into) else {
            self.faults = one_more(self.faults);
            return Err(Failed);
        };
        if count > 0 {
            self.pieces = one_more(self.pieces);
        }
        Ok(count)
    }
}

/// A writer of std as a sink. Each error of it is a fault, and so is a write that takes nothing.
#[derive(Drop)]
pub struct StdSink<W: Write> {
    writer: W,
    faults: u64,
}

impl<W: Write> StdSink<W> {
    /// A sink over a writer, with no fault yet.
    pub fn new(writer: W) -> StdSink<W>
        ensures { result.faults ≡ 0 }
    {
        StdSink { writer, faults: 0 }
    }
}

impl<W: Write> Sink for StdSink<W> {
    ghost faults = { λ s. s.faults };

    /// Writes to std's writer, and counts as a fault an error, and a count of 0 where there were bytes to take.
    fn write(&mut self, piece: &[u8]) -> Result<usize, Failed>
        ensures within { IfOk result (λ count. count ≤ length piece.now) }
        ensures later { self.old.faults ≤ self.new.faults }
        ensures calm { IfOk result (λ count. 0 < count → self.new.faults ≡ self.old.faults) }
        ensures idle { length piece.now ≡ 0 → OnOk result (self.new.faults ≡ self.old.faults) }
        ensures failed { OnErr result (HasRisen self.old.faults self.new.faults) }
        ensures stuck { result ≡ Ok 0 → 0 < length piece.now → HasRisen self.old.faults self.new.faults }
    {
        match self.writer.write(piece) {
            Ok(0) if !piece.is_empty() => {
                self.faults = one_more(self.faults);
                Ok(0)
            }
            Ok(count) => Ok(count),
            Err(_) => {
                self.faults = one_more(self.faults);
                Err(Failed)
            }
        }
    }
}

/// A count with one more, up to its last value.
fn one_more(count: u64) -> u64
    ensures counted { result ≡ count_after count 1 }
    ensures later { count ≤ result }
    ensures risen { HasRisen count result }
{
    count.saturating_add(1)
}
