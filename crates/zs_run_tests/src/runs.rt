//! Runs by each word: recordings that are the same and that differ, and lines that are out of form, too long, or no text.

ghost use Rattle.std.specs.Prelude.{◌<◌};

use crate::spelling::{CLOSE, EVENTS, SCRIPT, sink, source, spelled, status_of};
use std::alloc::{AllocError, Global};
use std::process::Abort;
use std::test::Fail;

/// A run: what it reads, in two parts, what it writes, how it complains, and its status.
#[derive(Drop)]
struct Run {
    input: &'static str,
    more: &'static str,
    output: &'static str,
    complaint: &'static str,
    status: u8,
}

/// A run by its fields in order, so that a table has it in one line.
const fn case(
    input: &'static str,
    more: &'static str,
    output: &'static str,
    complaint: &'static str,
    status: u8,
) -> Run {
    Run {
        input,
        more,
        output,
        complaint,
        status,
    }
}

/// The script of docs/RECORD.md, its recording, and what is left of that with another payload.
const HOME: &str = "sub any home/**\nput any home/hall x01 prio=5\nundeclare sub 2\n";

const HOME_RECORDED: &str = "\
> sub any home/**
< 1 ok 2
< 1 send sub 2 s0:home/**
> put any home/hall x01
< 2 ok
< 2 send push s0:home/hall put x01 %
< 2 hand sub 2 put home/hall x01 %
> undeclare sub 2
< 3 ok
< 3 send unsub 2
< 3 end sub 2
> close
< 4 ok
< 4 send close
";

const HOME_CHANGED: &str = "\
> sub any home/**
< 1 ok 2
< 1 send sub 2 s0:home/**
> put any home/hall x01
< 2 ok
< 2 send push s0:home/hall put x01 %
< 2 hand sub 2 put home/hall x02 %
> undeclare sub 2
< 3 ok
< 3 send unsub 2
< 3 end sub 2
";

/// What is recorded of the script's first line.
const FIRST: &str = "> sub any k\n< 1 ok 2\n< 1 send sub 2 s0:k\n";

/// Whether the program, run once in reads and writes of at most `cut` bytes, writes and complains as it must.
fn runs_as(alloc: Global, word: &str, case: &Run, cut: usize) -> Result<bool, AllocError>
    requires { 0 < cut }
{
    let input = spelled(alloc, case.input, case.more)?;
    let wanted = spelled(alloc, case.output, "")?;
    let mut source = source(alloc, input, cut, 0)?;
    let mut output = sink(alloc, cut, 0)?;
    let mut complaints = sink(alloc, cut, 0)?;
    let status = status_of(alloc, word, &mut source, &mut output, &mut complaints)?;
    Ok(
        status == case.status
            && output.bytes() == wanted.as_slice()
            && complaints.bytes() == case.complaint.as_bytes(),
    )
}

/// Runs each case in reads and writes of one byte, of seven, and of all at once.
fn assert_runs(
    rt: &(impl Abort + AllocGlobal),
    word: &str,
    table: &[Run],
) -> Result<(), AllocError> {
    for case in table {
        for cut in [1, 7, 4096] {
            let is_right = runs_as(rt.alloc(), word, case, cut)?;
            assert!(*rt;
                is_right,
                "{word}, cut at {cut}, of {:?} and {:?}",
                case.input, case.more
            );
        }
    }
    Ok(())
}

/// A recording that is the same is told so with its count, another one with the first turn that differs.
#[test]
fn replays(rt: HostRuntime) -> Result<(), Fail> {
    let table = [
        case(EVENTS, CLOSE, "same 3\n", "", 0),
        case(EVENTS, "", "same 2\n", "", 0),
        case("", "", "same 0\n", "", 0),
        // An option that says what its absence does stands for the same event.
        case(
            "> sub any k print\n< 1 ok 2\n",
            "< 1 send sub 2 s0:k",
            "same 1\n",
            "",
            0,
        ),
        case(FIRST, "> put any k x01\n< 2 ok\n", "differs 2\n", "", 1),
        case(FIRST, "< 1 ok 2\n", "differs 1\n", "", 1),
        case(EVENTS, "> token k\n< 3 ok 4\n", "differs 3\n", "", 1),
        case("> sub any k\n", EVENTS, "differs 1\n", "", 1),
        case(EVENTS, "< $\n", "differs 2\n", "", 1),
        // A line of a turn may be no text.
        case(FIRST, "< !\n", "differs 1\n", "", 1),
        case(FIRST, "< 1 ok !\n> put any k x01\n", "differs 1\n", "", 1),
        case(HOME_RECORDED, "", "same 4\n", "", 0),
        case(HOME_CHANGED, "", "differs 2\n", "", 1),
    ];
    assert_runs(&rt, "replay", table.as_slice())?;
    Ok(())
}

/// A script's events are recorded with their turns, a refused one too, and a close behind them.
#[test]
fn records(rt: HostRuntime) -> Result<(), Fail> {
    let table = [
        case(HOME, "", HOME_RECORDED, "", 0),
        case("", "", "> close\n< 1 ok\n< 1 send close\n", "", 0),
        case(
            "sub any a//b",
            "",
            "> sub any a//b\n< 1 refused BadKeyExpr\n> close\n< 2 ok\n< 2 send close\n",
            "",
            0,
        ),
    ];
    assert_runs(&rt, "record", table.as_slice())?;
    Ok(())
}

/// A replay stops at a line that is out of form or too long, tells its number, and writes nothing.
#[test]
fn replays_stop(rt: HostRuntime) -> Result<(), Fail> {
    let table = [
        case("< 1 ok\n", "", "", "BadLine 1\n", 3),
        case("< 1 ok\n", EVENTS, "", "BadLine 1\n", 3),
        case("< 1 ok\n", "sub any k\n", "", "BadLine 2\n", 3),
        case(EVENTS, "recv sub 2\n", "", "BadLine 8\n", 3),
        case(EVENTS, "> recv sub 2\n", "", "BadLine 8\n", 3),
        case(EVENTS, ">token k\n", "", "BadLine 8\n", 3),
        case(EVENTS, "\n", "", "BadLine 8\n", 3),
        case(EVENTS, "<\n", "", "BadLine 8\n", 3),
        case(EVENTS, ">\n", "", "BadLine 8\n", 3),
        case(EVENTS, "> token !\n", "", "BadLine 8\n", 3),
        case(EVENTS, "! token k\n", "", "BadLine 8\n", 3),
        case(EVENTS, "< $a\n", "", "LineTooLong 8\n", 4),
        case(EVENTS, "$aaa", "", "LineTooLong 8\n", 4),
    ];
    assert_runs(&rt, "replay", table.as_slice())?;
    Ok(())
}

/// A recording stops at a line that is out of form or too long, behind what it recorded of the lines before.
#[test]
fn records_stop(rt: HostRuntime) -> Result<(), Fail> {
    let table = [
        case("sub any k\nrecv sub 2\n", "", FIRST, "BadLine 2\n", 3),
        case("sub any k\nputt any k x\n", SCRIPT, FIRST, "BadLine 2\n", 3),
        case("sub any k\n\n", "", FIRST, "BadLine 2\n", 3),
        case("sub any k\nsub any !\n", "", FIRST, "BadLine 2\n", 3),
        case("sub any k\n", "$aa\n", FIRST, "BadLine 2\n", 3),
        case("sub any k\n", "$aaa\n", FIRST, "LineTooLong 2\n", 4),
        case(EVENTS, "", "", "BadLine 1\n", 3),
    ];
    assert_runs(&rt, "record", table.as_slice())?;
    Ok(())
}

/// A word other than `record` and `replay` is refused with status 2, and nothing is written.
#[test]
fn other_words(rt: HostRuntime) -> Result<(), Fail> {
    let table = [case(SCRIPT, "", "", "bad words\n", 2)];
    for word in ["drive", "", "Record", "replay "] {
        assert_runs(&rt, word, table.as_slice())?;
    }
    Ok(())
}
