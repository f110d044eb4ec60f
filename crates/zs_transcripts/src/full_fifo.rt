//! A fifo with room for one item that is handed 301: none is lost, and all are read in order.

ghost use Rattle.std.specs.Prelude.{◌≤◌};

use crate::spelling::{sink, source, spell};
use crate::streams::stop_of;
use std::alloc::{AllocError, Global};
use std::test::Fail;

/// The payloads, each as its four hexadecimal digits.
const FIRST: u32 = 1000;

const LAST: u32 = 1300;

/// How far the number of the line that hands an item over is below its payload, and that of the one that reads it.
const HANDED: u32 = 998;

const READ: u32 = 696;

/// The line that puts an item.
fn push_put(alloc: Global, script: &mut Vec<u8>, item: u32) -> Result<(), AllocError> {
    let line = format!(in alloc; "net push s0:k put x{item}\n")?;
    spell(script, line.as_str())
}

/// The subscriber, and all puts.
fn push_puts(alloc: Global, script: &mut Vec<u8>) -> Result<(), AllocError> {
    spell(script, "sub any k fifo:1\n")?;
    for item in FIRST..=LAST {
        push_put(alloc, script, item)?;
    }
    Ok(())
}

/// The end of the subscriber, and a read for each item and for the end of the channel.
fn push_reads(script: &mut Vec<u8>) -> Result<(), AllocError> {
    spell(script, "undeclare sub 2\n")?;
    for _ in FIRST..=LAST {
        spell(script, "recv sub 2\n")?;
    }
    spell(script, "recv sub 2\n")
}

/// All puts come in, the subscriber ends, and its channel is read to its end.
fn script(alloc: Global) -> Result<Vec<u8>, AllocError> {
    let mut script = Vec::new(alloc);
    push_puts(alloc, &mut script)?;
    push_reads(&mut script)?;
    Ok(script)
}

/// What is printed for the line that hands an item over.
fn push_handed(alloc: Global, output: &mut Vec<u8>, item: u32) -> Result<(), AllocError>
    requires { HANDED ≤ item }
{
    let line = item - HANDED;
    let lines = format!(in alloc; "{line} ok\n{line} hand sub 2 put k x{item} %\n")?;
    spell(output, lines.as_str())
}

/// What is printed for the lines that hand items over, behind that of the subscriber.
fn handed(alloc: Global, output: &mut Vec<u8>) -> Result<(), AllocError> {
    spell(output, "1 ok 2\n1 send sub 2 s0:k\n")?;
    for item in FIRST..=LAST {
        push_handed(alloc, output, item)?;
    }
    Ok(())
}

/// What is printed for the line that reads an item.
fn push_read(alloc: Global, output: &mut Vec<u8>, item: u32) -> Result<(), AllocError>
    requires { READ ≤ item }
{
    let line = item - READ;
    let text = format!(in alloc; "{line} item put k x{item} %\n")?;
    spell(output, text.as_str())
}

/// What is printed for those that read them, and at the end of input.
fn read(alloc: Global, output: &mut Vec<u8>) -> Result<(), AllocError> {
    spell(output, "303 ok\n303 send unsub 2\n303 end sub 2\n")?;
    for item in FIRST..=LAST {
        push_read(alloc, output, item)?;
    }
    spell(output, "605 disconnected\n606 ok\n606 send close\n")
}

/// Whether these bytes are all that is printed.
fn is_all(alloc: Global, printed: &[u8]) -> Result<bool, AllocError> {
    let mut output = Vec::new(alloc);
    handed(alloc, &mut output)?;
    read(alloc, &mut output)?;
    Ok(printed == output.as_slice())
}

/// Whether a run over the script comes to its end, with all of this printed.
fn loses_nothing(alloc: Global) -> Result<bool, AllocError> {
    let mut source = source(alloc, script(alloc)?, 4096, 0)?;
    let mut sink = sink(alloc, 4096, 0)?;
    let stop = stop_of(alloc, &mut source, &mut sink);
    Ok(stop.is_none() && is_all(alloc, sink.bytes())?)
}

/// All 301 items that a full fifo was handed are read behind the subscriber's end, in their order.
#[test]
fn full_fifo_loses_nothing(rt: HostRuntime) -> Result<(), Fail> {
    assert!(rt; loses_nothing(rt.alloc())?);
    Ok(())
}
