//! Transcripts: each script line, and under it, behind `<`, what is printed for it. They were worked out by hand from
//! the rules of the script language.

ghost use Rattle.std.specs.Prelude.{◌<◌};

use crate::spelling::spell;
use crate::streams::Streams;
pub(crate) use home::HOME;
pub(crate) use many_kinds::{MANY_KINDS, WORDS};
use std::alloc::{AllocError, Global};
use std::process::Abort;
use std::test::Fail;

mod cancelling;
mod channels;
mod closing;
mod declared_keys;
mod gets;
mod home;
mod links;
mod liveliness;
mod many_kinds;
mod matching;
mod network;
mod publishers;
mod queriers;
mod query_values;
mod queryables;
mod samples;
mod sharing;
mod subscribers;

/// A script with its output.
pub(crate) struct Transcript {
    /// What it shows.
    name: &'static str,
    /// The lines of the script, each with its output behind it. What is printed for the end of input comes last.
    text: &'static str,
}

/// A transcript taken apart.
#[derive(Drop)]
pub(crate) struct Parts {
    pub(crate) script: Vec<u8>,
    pub(crate) output: Vec<u8>,
}

impl Transcript {
    /// The script and its output.
    pub(crate) fn parts(&self, alloc: Global) -> Result<Parts, AllocError> {
        let mut parts = Parts {
            script: Vec::new(alloc),
            output: Vec::new(alloc),
        };
        for line in self.text.lines() {
            parts.push_line(line)?;
        }
        Ok(parts)
    }

    /// Whether a run with these words, in reads and writes of this length, prints what the transcript says.
    fn is_printed(&self, alloc: Global, words: &str, cut: usize) -> Result<bool, AllocError>
        requires { 0 < cut }
    {
        let Parts { script, output } = self.parts(alloc)?;
        is_output(alloc, words, cut, script, output.as_slice())
    }
}

impl Parts {
    /// Puts a line of a transcript behind the part that it belongs to.
    fn push_line(&mut self, line: &str) -> Result<(), AllocError> {
        match line.strip_prefix("< ") {
            Some(printed) => push_line(&mut self.output, printed),
            None => push_line(&mut self.script, line),
        }
    }
}

/// Puts a line behind the bytes, with its line feed.
fn push_line(bytes: &mut Vec<u8>, line: &str) -> Result<(), AllocError> {
    spell(bytes, line)?;
    bytes.push(b'\n')?;
    Ok(())
}

/// Whether a run of this script with these words, in reads and writes of this length, prints this.
fn is_output(
    alloc: Global,
    words: &str,
    cut: usize,
    script: Vec<u8>,
    output: &[u8],
) -> Result<bool, AllocError>
    requires { 0 < cut }
{
    let mut streams = Streams::new(alloc, script, cut, (0, 0), cut)?;
    let status = streams.run_line(alloc, words)?;
    Ok(status == 0 && streams.have_told("", output))
}

/// Runs a script with these words, in reads and writes of several lengths, and compares what it prints.
fn assert_one_printed(
    rt: &(impl Abort + AllocGlobal),
    words: &str,
    transcript: &Transcript,
) -> Result<(), AllocError> {
    let name = transcript.name;
    for cut in [1, 7, 4096] {
        let is_printed = transcript.is_printed(rt.alloc(), words, cut)?;
        assert!(*rt; is_printed, "of {name} in pieces of {cut}");
    }
    Ok(())
}

/// Does so with each script.
fn assert_printed(
    rt: &(impl Abort + AllocGlobal),
    words: &str,
    transcripts: &[Transcript],
) -> Result<(), Fail> {
    for transcript in transcripts {
        assert_one_printed(rt, words, transcript)?;
    }
    Ok(())
}
