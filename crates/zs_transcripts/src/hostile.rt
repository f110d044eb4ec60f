//! Lines that are out of form, and messages that name what isn't there.

use crate::spelling::{is_spelled, sink, source};
use crate::streams::stop_of;
use std::alloc::{AllocError, Global};
use std::test::Fail;
use zs_session::DriveError;

/// Lines that are no events.
static HOSTILE: [&[u8]; 19] = [
    b"put\t\tany\tk\tx01",
    b"sub\t\tany\tk",
    b"get\t\tany\tk",
    b"put\tany\tk\tx01\tprio=5\tprio=5",
    b"get\tany\tk\taccept=any\taccept=any",
    b"put\tany\tk\tx01\trel=1\tprio=5",
    b"pput\t2\tx01\tts=1:1\tenc=a",
    b"net\tresponse\t0\ts0:k\tput\tx01\tby=1:2\tprio=5",
    b"put\tany\tk\tx0",
    b"put\tany\tk\tx01\tatt=x0",
    b"get\tany\tk\tpayload=x0",
    b"undeclare\tsub\t02",
    b"undeclare\tsub\t4294967296",
    b"undeclare\tpub\t4294967296",
    b"net\tresponsefinal\t4294967296",
    b"net\tkeyexpr\t65536\ts0:k",
    b"net\tinterest\t1\tfinal\tnone",
    b"put\tany\t\xff\tx01",
    b"sub\tany\tk\xc3",
];

/// A script of so many good lines and then this one, and a good line behind it.
fn script(alloc: Global, before: u64, line: &[u8]) -> Result<Vec<u8>, AllocError> {
    let mut script = Vec::new(alloc);
    for _ in 0..before {
        script.extend_from_slice(b"tick\t0\n")?;
    }
    script.extend_from_slice(line)?;
    script.extend_from_slice(b"\nclose\n")?;
    Ok(script)
}

/// Whether a run stops at this line behind so many good ones, with this printed for those.
fn stops_at(alloc: Global, line: &[u8], before: u64, printed: &str) -> Result<bool, AllocError> {
    let mut source = source(alloc, script(alloc, before, line)?, 7, 0)?;
    let mut sink = sink(alloc, 5, 0)?;
    let stop = stop_of(alloc, &mut source, &mut sink);
    let is_told = is_spelled(alloc, sink.bytes(), printed)?;
    Ok(is_told && stop == Some(DriveError::BadLine(before.saturating_add(1))))
}

/// Each hostile line ends a run as a bad line, by its number, behind 0, 1 and 2 good ones.
#[test]
fn hostile_lines(rt: HostRuntime) -> Result<(), Fail> {
    for line in &HOSTILE {
        for (before, printed) in [(0, ""), (1, "1 ok\n"), (2, "1 ok\n2 ok\n")] {
            let stops = stops_at(rt.alloc(), line, before, printed)?;
            assert!(rt; stops, "of {line:?} behind {before}");
        }
    }
    Ok(())
}
