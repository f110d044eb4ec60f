//! What runs of the program come to, by their words.

use std::alloc::{AllocError, Global};
use std::sync::Wait;
use std::test::Fail;
use std::thread::Threads;
use zs_keys::{MemorySink, SteadySource};
use zs_modes::run;

/// A run, whose words have a space between two.
struct Run {
    words: &'static str,
    /// The write that fails, 0 for none.
    fails: u64,
    status: u8,
    complaint: &'static str,
    output: &'static str,
}

const BAD: &str = "bad words\n";

static RUNS: [Run; 16] = [
    Run {
        words: "workers 2 3",
        fails: 0,
        status: 0,
        complaint: "",
        output: "entries\t8\nshares\t8\nhanded\t6\n",
    },
    Run {
        words: "workers 1 0",
        fails: 0,
        status: 0,
        complaint: "",
        output: "entries\t2\nshares\t2\nhanded\t0\n",
    },
    Run {
        words: "workers 64 5",
        fails: 0,
        status: 0,
        complaint: "",
        output: "entries\t322\nshares\t322\nhanded\t320\n",
    },
    Run {
        words: "workers 3 100",
        fails: 0,
        status: 0,
        complaint: "",
        output: "entries\t302\nshares\t302\nhanded\t300\n",
    },
    Run {
        words: "workers 2 3",
        fails: 1,
        status: 7,
        complaint: "WriteFault\n",
        output: "",
    },
    Run {
        words: "workers 2 3",
        fails: 3,
        status: 7,
        complaint: "WriteFault\n",
        output: "entries\t8\nshar",
    },
    Run {
        words: "workers 0 3",
        fails: 0,
        status: 2,
        complaint: BAD,
        output: "",
    },
    Run {
        words: "workers 65 3",
        fails: 0,
        status: 2,
        complaint: BAD,
        output: "",
    },
    Run {
        words: "workers 2 10001",
        fails: 0,
        status: 2,
        complaint: BAD,
        output: "",
    },
    Run {
        words: "workers 02 3",
        fails: 0,
        status: 2,
        complaint: BAD,
        output: "",
    },
    Run {
        words: "workers 2 03",
        fails: 0,
        status: 2,
        complaint: BAD,
        output: "",
    },
    Run {
        words: "workers 2",
        fails: 0,
        status: 2,
        complaint: BAD,
        output: "",
    },
    Run {
        words: "workers 2 3 4",
        fails: 0,
        status: 2,
        complaint: BAD,
        output: "",
    },
    Run {
        words: "worker 2 3",
        fails: 0,
        status: 2,
        complaint: BAD,
        output: "",
    },
    Run {
        words: "soak 7 4",
        fails: 0,
        status: 0,
        complaint: "",
        output: "events\t19\nhanded\t2\nsent\t19\nrefused\t0\n",
    },
    Run {
        words: "drive",
        fails: 0,
        status: 0,
        complaint: "",
        output: "1\tok\t2\n1\tsend\tsub\t2\ts0:k\n2\tok\n2\tsend\tclose\n2\tend\tsub\t2\n",
    },
];

/// The words of a line, with a space between two.
fn cut_words(alloc: Global, line: &str) -> Result<Vec<String>, AllocError> {
    let mut words = Vec::new(alloc);
    for word in line.split(' ') {
        words.push(String::from_str(alloc, word)?)?;
    }
    Ok(words)
}

/// A sink that takes at most seven bytes per write, and fails at this write.
fn sink(alloc: Global, fail: u64) -> Result<MemorySink, AllocError> {
    let mut failing = Vec::new(alloc);
    failing.push(fail)?;
    Ok(MemorySink::new(alloc, 7, failing, Vec::new(alloc)))
}

/// A source of one line, which declares a subscriber.
fn source(alloc: Global) -> Result<SteadySource, AllocError> {
    let script = String::from_str(alloc, "sub\tany\tk\n")?;
    Ok(SteadySource::new(script.into_bytes()))
}

/// Whether a run answers its status, complains and writes as it must.
fn runs_as<R: Wait + Threads + Sync>(
    rt: &R,
    alloc: Global,
    wanted: &Run,
) -> Result<bool, AllocError> {
    let words = cut_words(alloc, wanted.words)?;
    let mut script = source(alloc)?;
    let mut output = sink(alloc, wanted.fails)?;
    let mut complaints = sink(alloc, 0)?;
    let status = run(
        rt,
        alloc,
        words.as_slice(),
        &mut script,
        &mut output,
        &mut complaints,
    );
    Ok(
        status == wanted.status
            && complaints.bytes() == wanted.complaint.as_bytes()
            && output.bytes() == wanted.output.as_bytes(),
    )
}

/// Each mode ends with its status and writes what it must, also where words are bad or a write fails.
#[test]
fn each_mode_prints_what_its_words_ask(rt: HostRuntime) -> Result<(), Fail> {
    for wanted in &RUNS {
        let is_right = runs_as(&rt, rt.alloc(), wanted)?;
        assert!(rt; is_right, "of {:?}", wanted.words);
    }
    Ok(())
}
