//! Lines in pieces: how they are cut from what a source gives, and how a piece is written.

ghost use Rattle.std.specs.Prelude.{◌<◌};

use crate::spelling::{sink, source, stuck_sink};
use std::alloc::{AllocError, Global};
use std::process::Abort;
use std::test::Fail;
use zs_keys::{MemorySink, Source, SteadySource};
use zs_script::{Line, LineError, LineReader, WriteFault, write_whole};

/// Lists a line with its number.
fn list_line(out: &mut String, line: Line) -> Result<(), AllocError> {
    write!(out, "{}{:?} ", line.number, line.bytes)
}

/// Lists what a reader gave.
fn list(out: &mut String, next: Result<Option<Line>, LineError>) -> Result<(), AllocError> {
    match next {
        Ok(Some(line)) => list_line(out, line),
        Ok(None) => out.push_str("end"),
        Err(error) => write!(out, "{error:?}"),
    }
}

/// Lists the next line, or how the lines ended. Returns whether they did.
fn list_next<S: Source>(
    out: &mut String,
    reader: &mut LineReader,
    source: &mut S,
) -> Result<bool, AllocError> {
    let next = reader.next(source);
    let ended = !matches!(&next, Ok(Some(_)));
    list(out, next)?;
    Ok(ended)
}

/// Each line with its number, and how it ended.
fn listed<S: Source>(
    alloc: Global,
    source: &mut S,
    line_max: u32,
    turns: u64,
) -> Result<String, AllocError> {
    let mut out = String::new(alloc);
    let mut reader = LineReader::new(alloc, line_max, turns);
    for _ in 0..100 {
        if list_next(&mut out, &mut reader, source)? {
            break;
        }
    }
    Ok(out)
}

/// Whether the lines of a source are listed as this.
fn is_listed<S: Source>(
    alloc: Global,
    source: &mut S,
    line_max: u32,
    turns: u64,
    want: &str,
) -> Result<bool, AllocError> {
    let is = listed(alloc, source, line_max, turns)?;
    Ok(is.as_str() == want)
}

/// Whether a text in a steady source is listed so.
fn is_steadily_listed(alloc: Global, text: &str, want: &str) -> Result<bool, AllocError> {
    let mut source = SteadySource::new(Vec::from_slice(alloc, text.as_bytes())?);
    is_listed(alloc, &mut source, 10, 100, want)
}

/// Whether a text in pieces of this length is listed so.
fn is_listed_in_pieces(
    alloc: Global,
    text: &str,
    cut: usize,
    want: &str,
) -> Result<bool, AllocError>
    requires { 0 < cut }
{
    let mut source = source(alloc, Vec::from_slice(alloc, text.as_bytes())?, cut, 0)?;
    is_listed(alloc, &mut source, 10, 100, want)
}

/// A text is listed so from a steady source, and in pieces of each length.
fn assert_listed(rt: &impl Abort, alloc: Global, text: &str, want: &str) -> Result<(), AllocError> {
    let is_steady = is_steadily_listed(alloc, text, want)?;
    assert!(*rt; is_steady, "of {text:?} in a steady source");
    for cut in [1, 7, 4096] {
        let is_listed = is_listed_in_pieces(alloc, text, cut, want)?;
        assert!(*rt; is_listed, "of {text:?} in pieces of {cut}");
    }
    Ok(())
}

/// Lines and their numbers are the same however the bytes arrive; a line that is too long stops the reader.
#[test]
fn reads_the_same_lines_in_any_pieces(rt: HostRuntime) -> Result<(), Fail> {
    let table = [
        ("", "end"),
        ("a", "1[97] end"),
        ("ab\nc", "1[97, 98] 2[99] end"),
        ("ab\n\nc\n", "1[97, 98] 2[] 3[99] end"),
        ("\n", "1[] end"),
        (
            "a\r\n0123456789",
            "1[97, 13] 2[48, 49, 50, 51, 52, 53, 54, 55, 56, 57] end",
        ),
        ("a\n0123456789a\nb", "1[97] LineTooLong(2)"),
        ("a\n0123456789a", "1[97] LineTooLong(2)"),
    ];
    for (text, want) in table {
        assert_listed(&rt, rt.alloc(), text, want)?;
    }
    Ok(())
}

/// Whether three lines, in pieces of this length, with a fault at this read and with so many turns, are listed so.
fn is_stopped(
    alloc: Global,
    cut: usize,
    fail: u64,
    turns: u64,
    line_max: u32,
    want: &str,
) -> Result<bool, AllocError>
    requires { 0 < cut }
{
    let mut source = source(alloc, Vec::from_slice(alloc, b"a\nbc\nd")?, cut, fail)?;
    is_listed(alloc, &mut source, line_max, turns, want)
}

/// A reader ends out of turns, at a line that is too long, or at a read that fails, with all lines before it given.
#[test]
fn tells_why_it_reads_no_further(rt: HostRuntime) -> Result<(), Fail> {
    let table = [
        (4096, 0, 0, 9, "OutOfTurns"),
        (4096, 0, 1, 9, "1[97] 2[98, 99] OutOfTurns"),
        (4096, 0, 2, 9, "1[97] 2[98, 99] 3[100] end"),
        (3, 0, 2, 1, "1[97] LineTooLong(2)"),
        // The turns run out with a rest that is too long already.
        (4, 0, 1, 1, "1[97] LineTooLong(2)"),
        (3, 0, 1, 9, "1[97] OutOfTurns"),
        (3, 0, 100, 2, "1[97] 2[98, 99] 3[100] end"),
        (3, 2, 100, 9, "1[97] ReadFault"),
    ];
    for (cut, fail, turns, line_max, want) in table {
        let is_stopped = is_stopped(rt.alloc(), cut, fail, turns, line_max, want)?;
        assert!(rt; is_stopped, "of {want} after {turns} turns");
    }
    Ok(())
}

/// Whether a piece is written whole in parts of this length, and an empty one behind it.
fn is_written(alloc: Global, cut: usize) -> bool
    requires { 0 < cut }
{
    let mut sink = MemorySink::new(alloc, cut, Vec::new(alloc), Vec::new(alloc));
    let whole = write_whole(&mut sink, b"zenoh");
    let empty = write_whole(&mut sink, b"");
    whole == Ok(()) && empty == Ok(()) && sink.bytes() == b"zenoh".as_slice()
}

/// Whether the write of a piece fails, with these bytes taken.
fn fails_behind(sink: &mut MemorySink, taken: &[u8]) -> bool {
    write_whole(sink, b"zenoh") == Err(WriteFault) && sink.bytes() == taken
}

/// Whether a sink that fails at its third write has taken what came before.
fn fails_in_part(alloc: Global) -> Result<bool, AllocError> {
    let mut sink = sink(alloc, 2, 3)?;
    Ok(fails_behind(&mut sink, b"zeno"))
}

/// Whether one that takes nothing at its second write fails there.
fn stalls_in_part(alloc: Global) -> Result<bool, AllocError> {
    let mut sink = stuck_sink(alloc, 2, 2)?;
    Ok(fails_behind(&mut sink, b"ze"))
}

/// A piece is written whole in parts of any length; a sink that fails or stalls has taken what came before.
#[test]
fn writes_a_piece_in_parts(rt: HostRuntime) -> Result<(), Fail> {
    for cut in [1, 2, 4096] {
        assert!(rt; is_written(rt.alloc(), cut), "in parts of {cut}");
    }
    assert!(rt; fails_in_part(rt.alloc())?, "of a sink that fails");
    assert!(rt; stalls_in_part(rt.alloc())?, "of a sink that takes nothing");
    Ok(())
}
