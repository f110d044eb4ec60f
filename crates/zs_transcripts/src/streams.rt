//! What a run reads and what it writes, and runs over it.

ghost use Rattle.std.specs.Prelude.{◌<◌};

use crate::spelling::{cut_words, sink, source};
use std::alloc::{AllocError, Global};
use zs_keys::{MemorySink, MemorySource};
use zs_session::{DriveError, Settings, drive, run};

/// The streams of a run of the program.
#[derive(Drop)]
pub struct Streams {
    pub source: MemorySource,
    pub output: MemorySink,
    pub complaints: MemorySink,
}

impl Streams {
    /// Streams over a script that is read, and whose output is written, at most `cut` bytes at a time. They fail at the
    /// read and at the write in `fails`, 0 for none. Complaints are written at most `complaint` bytes at a time.
    pub fn new(
        alloc: Global,
        script: Vec<u8>,
        cut: usize,
        fails: (u64, u64),
        complaint: usize,
    ) -> Result<Streams, AllocError>
        requires { (0 < cut) × (0 < complaint) }
    {
        let source = source(alloc, script, cut, fails.0)?;
        let output = sink(alloc, cut, fails.1)?;
        Streams::over(alloc, source, output, complaint)
    }

    /// Streams of this source and output, with complaints that are written at most `complaint` bytes at a time.
    pub fn over(
        alloc: Global,
        source: MemorySource,
        output: MemorySink,
        complaint: usize,
    ) -> Result<Streams, AllocError>
        requires { 0 < complaint }
    {
        let complaints = sink(alloc, complaint, 0)?;
        Ok(Streams {
            source,
            output,
            complaints,
        })
    }

    /// Runs the program with these words, and returns its status.
    pub fn run(&mut self, alloc: Global, words: &[String]) -> u8 {
        run(
            alloc,
            words,
            &mut self.source,
            &mut self.output,
            &mut self.complaints,
        )
    }

    /// Runs the program with the words of this line.
    pub fn run_line(&mut self, alloc: Global, line: &str) -> Result<u8, AllocError> {
        let words = cut_words(alloc, line)?;
        Ok(self.run(alloc, words.as_slice()))
    }

    /// Whether this was complained of, and this printed.
    pub fn have_told(&self, complaint: &str, output: &[u8]) -> bool {
        self.complaints.bytes() == complaint.as_bytes() && self.output.bytes() == output
    }
}

/// Drives a session with the default settings, and returns why it stopped before the end of the script.
pub fn stop_of(
    alloc: Global,
    source: &mut MemorySource,
    sink: &mut MemorySink,
) -> Option<DriveError> {
    let settings = Settings::default();
    drive(alloc, source, sink, &settings).err()
}
