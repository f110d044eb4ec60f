//! Sources and sinks that fail at each read and at each write of a run.

use crate::spelling::{CLOSE, EVENTS, SCRIPT, sink, source, spelled, status_of};
use std::alloc::{AllocError, Global};
use std::process::Abort;
use std::test::Fail;

/// How many bytes a read gives at most, and how many a write takes.
const READ: usize = 7;

const WRITE: usize = 5;

/// More writes than a run makes.
const MANY: u64 = 200;

/// A run that no fault stops: its word, what it reads, and what it writes.
#[derive(Drop)]
struct Whole {
    word: &'static str,
    input: Vec<u8>,
    output: Vec<u8>,
}

/// The run that records.
fn recording(alloc: Global) -> Result<Whole, AllocError> {
    Ok(Whole {
        word: "record",
        input: spelled(alloc, SCRIPT, "")?,
        output: spelled(alloc, EVENTS, CLOSE)?,
    })
}

/// The run that plays its recording again.
fn replaying(alloc: Global) -> Result<Whole, AllocError> {
    Ok(Whole {
        word: "replay",
        input: spelled(alloc, EVENTS, CLOSE)?,
        output: spelled(alloc, "same 3\n", "")?,
    })
}

/// What the program complains of at that status, if a run under a failing stream may end with it.
fn complaint_of(status: u8) -> Option<&'static str> {
    match status {
        0 => Some(""),
        6 => Some("ReadFault\n"),
        7 => Some("WriteFault\n"),
        _ => None,
    }
}

/// Runs the program where a read and a write fail, 0 for none: the status, if the program complained of that, and wrote the
/// whole text where the run came to its end, and else a prefix of it.
fn status_with(
    alloc: Global,
    whole: &Whole,
    failing_read: u64,
    failing_write: u64,
) -> Result<Option<u8>, AllocError> {
    let input = Vec::from_slice(alloc, whole.input.as_slice())?;
    let mut source = source(alloc, input, READ, failing_read)?;
    let mut output = sink(alloc, WRITE, failing_write)?;
    let mut complaints = sink(alloc, 4096, 0)?;
    let status = status_of(alloc, whole.word, &mut source, &mut output, &mut complaints)?;
    let text = whole.output.as_slice();
    let is_told = match complaint_of(status) {
        Some(complaint) => complaints.bytes() == complaint.as_bytes(),
        None => false,
    };
    let is_front = text.starts_with(output.bytes());
    let is_whole = text.len() == output.bytes().len();
    Ok((is_told && is_front && is_whole == (status == 0)).then_some(status))
}

/// Runs the program once for each of its reads, which fails in that run, and once without a fault.
fn assert_reads_fail(rt: &(impl Abort + AllocGlobal), whole: &Whole) -> Result<(), AllocError> {
    // The last read sees the end.
    let reads = (whole.input.len().div_ceil(READ) + 1) as u64;
    for fail in 1..=reads {
        let status = status_with(rt.alloc(), whole, fail, 0)?;
        assert!(*rt; status == Some(6), "at read {fail}");
    }
    let status = status_with(rt.alloc(), whole, reads + 1, 0)?;
    assert!(*rt; status == Some(0));
    Ok(())
}

/// Whichever read fails, a recording and a replay complain of it by status 6, with a prefix of their output.
#[test]
fn each_read_fails(rt: HostRuntime) -> Result<(), Fail> {
    assert_reads_fail(&rt, &recording(rt.alloc())?)?;
    assert_reads_fail(&rt, &replaying(rt.alloc())?)?;
    Ok(())
}

/// Runs the program once for each of its writes, which fails in that run.
fn assert_writes_fail(rt: &(impl Abort + AllocGlobal), whole: &Whole) -> Result<(), AllocError> {
    let mut writes = 0;
    for fail in 1..=MANY {
        let status = status_with(rt.alloc(), whole, 0, fail)?;
        assert!(*rt; status.is_some(), "at write {fail}");
        if status == Some(7) {
            writes = fail;
        }
    }
    assert!(*rt; writes >= (whole.output.len() / WRITE) as u64);
    assert!(*rt; writes < MANY);
    Ok(())
}

/// Whichever write fails, a recording and a replay complain of it, with a prefix of their output.
#[test]
fn each_write_fails(rt: HostRuntime) -> Result<(), Fail> {
    assert_writes_fail(&rt, &recording(rt.alloc())?)?;
    assert_writes_fail(&rt, &replaying(rt.alloc())?)?;
    Ok(())
}
