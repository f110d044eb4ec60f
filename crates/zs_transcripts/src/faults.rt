//! Sources and sinks that fail at each read and at each write of a run over many kinds of events.

use crate::spelling::{sink, source, stuck_sink};
use crate::streams::Streams;
use crate::transcripts::{HOME, MANY_KINDS, Parts, Transcript, WORDS};
use std::alloc::{AllocError, Global};
use std::process::Abort;
use std::test::Fail;
use zs_keys::{MemorySink, MemorySource};

/// How many bytes a read gives at most, and how many a write takes.
const READ: usize = 7;

const WRITE: usize = 5;

/// More writes than the run makes.
const MANY: u64 = 2000;

/// A source of the script that fails at this read, 0 for none.
fn script(alloc: Global, parts: &Parts, fail: u64) -> Result<MemorySource, AllocError> {
    let bytes = Vec::from_slice(alloc, parts.script.as_slice())?;
    source(alloc, bytes, READ, fail)
}

/// What is complained of for a status.
fn complaint_of(status: u8) -> &'static str {
    match status {
        0 => "",
        6 => "ReadFault\n",
        _ => "WriteFault\n",
    }
}

/// Whether the whole text is printed where the run comes to its end, and else a shorter prefix of it.
fn is_printed(status: u8, printed: &[u8], text: &[u8]) -> bool {
    text.starts_with(printed) && (status == 0) == (printed.len() == text.len())
}

/// Whether what goes with this status was complained of and printed.
fn is_told(streams: &Streams, status: u8, text: &[u8]) -> bool {
    streams.complaints.bytes() == complaint_of(status).as_bytes()
        && is_printed(status, streams.output.bytes(), text)
}

/// The streams of a run that fails at this read, 0 for none, with this output.
fn streams(
    alloc: Global,
    parts: &Parts,
    fail: u64,
    output: MemorySink,
) -> Result<Streams, AllocError> {
    let source = script(alloc, parts, fail)?;
    Streams::over(alloc, source, output, 4096)
}

/// Runs the script, and returns the status: none where what is printed or complained of isn't what goes with it.
fn status_of(
    alloc: Global,
    words: &str,
    parts: &Parts,
    fail: u64,
    output: MemorySink,
) -> Result<Option<u8>, AllocError> {
    let mut streams = streams(alloc, parts, fail, output)?;
    let status = streams.run_line(alloc, words)?;
    let is_told = is_told(&streams, status, parts.output.as_slice());
    Ok(is_told.then_some(status))
}

/// The status of a run that fails at this read.
fn status_at_read(
    alloc: Global,
    words: &str,
    parts: &Parts,
    fail: u64,
) -> Result<Option<u8>, AllocError> {
    status_of(alloc, words, parts, fail, sink(alloc, 4096, 0)?)
}

/// Runs the script once for each of its reads, which fails in that run, and once without a fault.
fn assert_reads_fail(
    rt: &(impl Abort + AllocGlobal),
    words: &str,
    transcript: &Transcript,
) -> Result<(), AllocError> {
    let parts = transcript.parts(rt.alloc())?;
    // The last read sees the end.
    let reads = (parts.script.len().div_ceil(READ) + 1) as u64;
    for fail in 1..=reads + 1 {
        let status = status_at_read(rt.alloc(), words, &parts, fail)?;
        let wanted = if fail > reads { 0 } else { 6 };
        assert!(*rt; status == Some(wanted), "of {words:?} at read {fail}");
    }
    Ok(())
}

/// A run ends with status 6 at the read that fails, whichever it is, with a prefix of its output printed.
#[test]
fn each_read_fails(rt: HostRuntime) -> Result<(), Fail> {
    assert_reads_fail(&rt, WORDS, &MANY_KINDS)?;
    assert_reads_fail(&rt, "drive", &HOME)?;
    Ok(())
}

/// A sink that fails at this write, or takes nothing at it.
fn failing_sink(alloc: Global, fail: u64, takes_nothing: bool) -> Result<MemorySink, AllocError> {
    if takes_nothing {
        stuck_sink(alloc, WRITE, fail)
    } else {
        sink(alloc, WRITE, fail)
    }
}

/// The status of a run that fails at this write, or in which it takes nothing.
fn status_at_write(
    alloc: Global,
    words: &str,
    parts: &Parts,
    fail: u64,
    takes_nothing: bool,
) -> Result<Option<u8>, AllocError> {
    let output = failing_sink(alloc, fail, takes_nothing)?;
    status_of(alloc, words, parts, 0, output)
}

/// How many writes a run makes, each of which ends it where it fails, or where it takes nothing.
fn failing_writes(
    rt: &(impl Abort + AllocGlobal),
    words: &str,
    parts: &Parts,
    takes_nothing: bool,
) -> Result<u64, AllocError> {
    for fail in 1..=MANY {
        let status = status_at_write(rt.alloc(), words, parts, fail, takes_nothing)?;
        if status == Some(0) {
            return Ok(fail - 1);
        }
        assert!(*rt; status == Some(7), "of {words:?} at write {fail}");
    }
    Ok(MANY)
}

/// Runs the script once for each of its writes, which fails or takes nothing in that run.
fn assert_writes_fail(
    rt: &(impl Abort + AllocGlobal),
    words: &str,
    transcript: &Transcript,
) -> Result<(), AllocError> {
    let parts = transcript.parts(rt.alloc())?;
    let least = (parts.output.len() / WRITE) as u64;
    for takes_nothing in [false, true] {
        let writes = failing_writes(rt, words, &parts, takes_nothing)?;
        assert!(*rt;
            least <= writes && writes < MANY,
            "of {words:?} in {writes} writes"
        );
    }
    Ok(())
}

/// A run ends with status 7 at the write that fails or takes nothing, whichever it is.
#[test]
fn each_write_fails(rt: HostRuntime) -> Result<(), Fail> {
    assert_writes_fail(&rt, WORDS, &MANY_KINDS)?;
    assert_writes_fail(&rt, "drive", &HOME)?;
    Ok(())
}
