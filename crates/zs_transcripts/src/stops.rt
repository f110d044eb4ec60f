//! Scripts that no run gets through.

use crate::spelling::{is_spelled, sink, source, spelled};
use std::alloc::{AllocError, Global};
use std::test::Fail;
use zs_keys::{MemorySink, MemorySource};
use zs_session::{DriveError, Settings, drive};

/// A script that stops a run.
struct Stop {
    script: &'static str,
    /// The most bytes of a line.
    line_max: u32,
    /// The most reads that give bytes.
    turns: u64,
    /// What it stops with.
    error: DriveError,
    /// What is printed before.
    output: &'static str,
}

static STOPS: [Stop; 8] = [
    Stop {
        script: "sub any k\nput any k x01\nputt any k x\n",
        line_max: 100,
        turns: 9,
        error: DriveError::BadLine(3),
        output: "1 ok 2\n1 send sub 2 s0:k\n2 ok\n2 send push s0:k put x01 %\n2 hand sub 2 put k x01 %\n",
    },
    Stop {
        script: "sub any k\n\nsub any k\n",
        line_max: 100,
        turns: 9,
        error: DriveError::BadLine(2),
        output: "1 ok 2\n1 send sub 2 s0:k\n",
    },
    Stop {
        script: "close now\n",
        line_max: 100,
        turns: 9,
        error: DriveError::BadLine(1),
        output: "",
    },
    Stop {
        script: "net push s1 put x\n",
        line_max: 100,
        turns: 9,
        error: DriveError::BadLine(1),
        output: "",
    },
    Stop {
        script: "undeclare sub 02\n",
        line_max: 100,
        turns: 9,
        error: DriveError::BadLine(1),
        output: "",
    },
    Stop {
        script: "sub any k\nsub any kk\n",
        line_max: 9,
        turns: 9,
        error: DriveError::LineTooLong(2),
        output: "1 ok 2\n1 send sub 2 s0:k\n",
    },
    Stop {
        script: "sub any k\nsub any k\n",
        line_max: 100,
        turns: 1,
        error: DriveError::OutOfTurns,
        output: "1 ok 2\n1 send sub 2 s0:k\n2 ok 3\n",
    },
    // A bad line among those that were read comes before the reads run out.
    Stop {
        script: "sub any k\nsub\n",
        line_max: 100,
        turns: 1,
        error: DriveError::BadLine(2),
        output: "1 ok 2\n1 send sub 2 s0:k\n",
    },
];

impl Stop {
    /// Whether a run over these streams has valid settings and stops with this error.
    fn stops(&self, alloc: Global, source: &mut MemorySource, sink: &mut MemorySink) -> bool {
        let mut settings = Settings::default();
        settings.line_max = self.line_max;
        settings.turns = self.turns;
        settings.is_valid() && drive(alloc, source, sink, &settings) == Err(self.error)
    }

    /// Whether a run over the script stops so, with this printed.
    fn is_named(&self, alloc: Global) -> Result<bool, AllocError> {
        let mut source = source(alloc, spelled(alloc, self.script)?, 4096, 0)?;
        let mut sink = sink(alloc, 4096, 0)?;
        let stops = self.stops(alloc, &mut source, &mut sink);
        Ok(stops && is_spelled(alloc, sink.bytes(), self.output)?)
    }
}

/// Each script stops the run with its error, behind what the lines before have printed.
#[test]
fn stops_are_named(rt: HostRuntime) -> Result<(), Fail> {
    for stop in &STOPS {
        let is_named = stop.is_named(rt.alloc())?;
        let script = stop.script;
        assert!(rt; is_named, "of {script:?}");
    }
    Ok(())
}
