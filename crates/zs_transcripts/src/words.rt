//! What runs do with their words, and the statuses that they return.

use crate::spelling::{FIRST, FIRST_TEXT, is_spelled, spelled};
use crate::streams::Streams;
use std::alloc::{AllocError, Global};
use std::test::Fail;
use zs_keys::{MemorySource, Source};

/// Words that no run takes.
static BAD_WORDS: [&str; 75] = [
    "",
    "Link",
    "links",
    "link link",
    "link drive",
    "drive link",
    "link zid=2",
    "link tag=2",
    "link line=9 zid=2 tag=3",
    "link zid=0",
    "link line",
    "soak",
    "soak 7",
    "soak 7 4 1",
    "soak 7 4 line=9",
    "soak 65537 4",
    "soak 7 100001",
    "soak 07 4",
    "soak 7 04",
    "soak -7 4",
    "soak 7 ",
    "Soak 7 4",
    "drive soak 7 4",
    "--help",
    "Drive",
    "drive=1",
    "drive ",
    "drive drive",
    "line=9",
    "line=9 drive",
    "drive line",
    "drive =9",
    "drive Line=9",
    "drive lines=9",
    "drive queries=0",
    "drive line==9",
    "drive line=9=",
    "drive line=9 line=9",
    "drive zid=2 tag=2 zid=2",
    "drive tag=1 key=1 tag=x",
    "drive zid=",
    "drive zid=0",
    "drive zid=01",
    "drive zid=0x1",
    "drive zid=g",
    "drive zid=100000000000000000000000000000000",
    "drive tag=",
    "drive tag=01",
    "drive tag=+1",
    "drive tag=-1",
    "drive tag=1a",
    "drive tag=18446744073709551616",
    "drive entity=4294967295",
    "drive entity=4294967296",
    "drive key=0",
    "drive key=00",
    "drive key=65536",
    "drive query=",
    "drive query=4294967296",
    "drive timeout=18446744073709551616",
    "drive timeout=1 timeout=1",
    "drive line=0",
    "drive line=1048577",
    "drive line=4294967297",
    "drive turns=0",
    "drive turns=01",
    "drive turns=18446744073709551616",
    "aggsub=a",
    "drive aggsub",
    "drive aggsub=",
    "drive aggsub=a//b",
    "drive aggpub=a aggpub=a#",
    "drive aggpub=a/$* aggsub=a",
    "drive aggsubs=a",
    "drive aggsub=a\tb",
];

/// Whether a run with these words has the status 2, complains of them and writes nothing.
fn refuses(alloc: Global, streams: &mut Streams, line: &str) -> Result<bool, AllocError> {
    let status = streams.run_line(alloc, line)?;
    Ok(status == 2 && streams.have_told("bad words\n", b"".as_slice()))
}

/// Whether the whole first script is still there to be read.
fn is_unread(script: &mut MemorySource) -> bool {
    let mut left = [0u8; 100];
    script.read(&mut left) == Ok(FIRST.len())
}

/// Whether a run with these words refuses them, and reads nothing.
fn are_refused(alloc: Global, line: &str) -> Result<bool, AllocError> {
    let mut streams = Streams::new(alloc, spelled(alloc, FIRST)?, 4096, (0, 0), 4096)?;
    let refuses = refuses(alloc, &mut streams, line)?;
    Ok(refuses && is_unread(&mut streams.source))
}

/// Each of these words is refused with status 2, before anything is read or printed.
#[test]
fn bad_words_read_and_write_nothing(rt: HostRuntime) -> Result<(), Fail> {
    for line in &BAD_WORDS {
        let are_refused = are_refused(rt.alloc(), line)?;
        assert!(rt; are_refused, "of {line:?}");
    }
    Ok(())
}

/// A run of the program.
struct Run {
    words: &'static str,
    script: &'static str,
    /// The reads and the writes that fail, 0 for none.
    fails: (u64, u64),
    status: u8,
    complaint: &'static str,
    output: &'static str,
}

static RUNS: [Run; 20] = [
    Run {
        words: "drive",
        script: FIRST,
        fails: (0, 0),
        status: 0,
        complaint: "",
        output: FIRST_TEXT,
    },
    Run {
        words: "drive turns=9 line=10 key=7 entity=5 tag=3 zid=c0",
        script: "sub any k\n",
        fails: (0, 0),
        status: 0,
        complaint: "",
        output: "1 ok 6\n1 send sub 6 s0:k\n2 ok\n2 send close\n2 end sub 6\n",
    },
    Run {
        words: "drive entity=4294967293",
        script: "sub any a\nsub any a\n",
        fails: (0, 0),
        status: 0,
        complaint: "",
        output: "\
1 ok 4294967294
1 send sub 4294967294 s0:a
2 refused IdsExhausted
3 ok
3 send close
3 end sub 4294967294
",
    },
    Run {
        words: "drive timeout=25 query=4294967294",
        script: "get remote a\nget any a\ntick 25\n",
        fails: (0, 0),
        status: 0,
        complaint: "",
        output: "\
1 ok 4294967294
1 send request 4294967294 s0:a target=best cons=latest timeout=25 G
2 refused IdsExhausted
3 ok
3 reply get 4294967294 err x54696d656f7574 enc=zenoh/string
3 end get 4294967294
4 ok
4 send close
",
    },
    Run {
        words: "drive timeout=0 query=4294967295",
        script: "get local a\n",
        fails: (0, 0),
        status: 0,
        complaint: "",
        output: "1 refused IdsExhausted\n2 ok\n2 send close\n",
    },
    Run {
        words: "drive",
        script: "sub any k\nsub\n",
        fails: (0, 0),
        status: 3,
        complaint: "BadLine 2\n",
        output: "1 ok 2\n1 send sub 2 s0:k\n",
    },
    Run {
        words: "drive line=9",
        script: "sub any k\nsub any k\n",
        fails: (0, 0),
        status: 0,
        complaint: "",
        output: "1 ok 2\n1 send sub 2 s0:k\n2 ok 3\n3 ok\n3 send close\n3 end sub 2\n3 end sub 3\n",
    },
    Run {
        words: "drive line=9",
        script: "sub any k\nsub any kk\n",
        fails: (0, 0),
        status: 4,
        complaint: "LineTooLong 2\n",
        output: "1 ok 2\n1 send sub 2 s0:k\n",
    },
    Run {
        words: "drive turns=1",
        script: "sub any k\nsub any k\n",
        fails: (0, 0),
        status: 5,
        complaint: "OutOfTurns\n",
        output: "1 ok 2\n1 send sub 2 s0:k\n2 ok 3\n",
    },
    Run {
        words: "drive turns=2",
        script: "sub any k\nsub any k\n",
        fails: (0, 0),
        status: 0,
        complaint: "",
        output: "1 ok 2\n1 send sub 2 s0:k\n2 ok 3\n3 ok\n3 send close\n3 end sub 2\n3 end sub 3\n",
    },
    Run {
        words: "drive aggpub=a/** aggsub=k aggpub=a/** aggsub=k",
        script: "sub any k\n",
        fails: (0, 0),
        status: 0,
        complaint: "",
        output: "1 ok 2\n1 send sub 2 s0:k\n2 ok\n2 send close\n2 end sub 2\n",
    },
    Run {
        words: "drive",
        script: FIRST,
        fails: (1, 0),
        status: 6,
        complaint: "ReadFault\n",
        output: "",
    },
    Run {
        words: "drive",
        script: FIRST,
        fails: (0, 1),
        status: 7,
        complaint: "WriteFault\n",
        output: "",
    },
    Run {
        words: "soak 7 4",
        script: "no line",
        fails: (1, 0),
        status: 0,
        complaint: "",
        output: "events 19\nhanded 2\nsent 19\nrefused 0\n",
    },
    Run {
        words: "soak 0 0",
        script: FIRST,
        fails: (0, 0),
        status: 0,
        complaint: "",
        output: "events 15\nhanded 0\nsent 15\nrefused 0\n",
    },
    Run {
        words: "soak 65536 1",
        script: FIRST,
        fails: (0, 0),
        status: 0,
        complaint: "",
        output: "events 16\nhanded 1\nsent 16\nrefused 0\n",
    },
    Run {
        words: "soak 7 4",
        script: FIRST,
        fails: (0, 1),
        status: 7,
        complaint: "WriteFault\n",
        output: "",
    },
    Run {
        words: "link zid=c0 tag=3",
        script: "a sub any k\nb net close\n",
        fails: (0, 0),
        status: 3,
        complaint: "BadLine 2\n",
        output: "1 a ok 2\n1 a send sub 2 s0:k\n",
    },
    Run {
        words: "link",
        script: "ab\na recv sub 2\n",
        fails: (0, 0),
        status: 3,
        complaint: "BadLine 2\n",
        output: "1 none\n",
    },
    Run {
        words: "link line=12",
        script: "a sub any kk\nb sub any kkk\n",
        fails: (0, 0),
        status: 4,
        complaint: "LineTooLong 2\n",
        output: "1 a ok 2\n1 a send sub 2 s0:kk\n",
    },
];

/// What 2000 puts from the seed 7 come to: by the remainders of their numbers, 1509 of them are handed.
const SOAKED: &str = "events\t2015\nhanded\t1509\nsent\t2015\nrefused\t0\n";

/// Whether that soak prints this, over a source that fails at the first read.
fn is_soaked(alloc: Global) -> Result<bool, AllocError> {
    let mut streams = Streams::new(alloc, Vec::new(alloc), 7, (1, 0), 1)?;
    let status = streams.run_line(alloc, "soak 7 2000")?;
    Ok(status == 0 && streams.have_told("", SOAKED.as_bytes()))
}

/// A soak of one seed prints the same counts each time, and reads nothing.
#[test]
fn soak_prints_the_same_twice(rt: HostRuntime) -> Result<(), Fail> {
    for time in 1..=2 {
        let is_soaked = is_soaked(rt.alloc())?;
        assert!(rt; is_soaked, "of soak {time}");
    }
    Ok(())
}

impl Run {
    /// Whether a run over these streams has this status, complains of this, and prints this.
    fn ends(&self, alloc: Global, streams: &mut Streams) -> Result<bool, AllocError> {
        let status = streams.run_line(alloc, self.words)?;
        let output = spelled(alloc, self.output)?;
        Ok(status == self.status && streams.have_told(self.complaint, output.as_slice()))
    }

    /// Whether a run over the script ends so.
    fn is_ended(&self, alloc: Global) -> Result<bool, AllocError> {
        let mut streams = Streams::new(alloc, spelled(alloc, self.script)?, 4096, self.fails, 3)?;
        self.ends(alloc, &mut streams)
    }
}

/// Each run has the status, the complaint and the output that belong to its words and script.
#[test]
fn statuses_and_complaints(rt: HostRuntime) -> Result<(), Fail> {
    for case in &RUNS {
        let is_ended = case.is_ended(rt.alloc())?;
        let Run { words, script, .. } = case;
        assert!(rt; is_ended, "of {words:?} over {script:?}");
    }
    Ok(())
}

/// Whether a run with no words prints what the default settings give.
fn is_default(alloc: Global) -> Result<bool, AllocError> {
    let mut streams = Streams::new(alloc, spelled(alloc, FIRST)?, 4096, (0, 0), 1)?;
    let status = streams.run(alloc, &[]);
    Ok(status == 0 && is_spelled(alloc, streams.output.bytes(), FIRST_TEXT)?)
}

/// A run with no words is one of `drive` with the default settings.
#[test]
fn no_words_are_the_defaults(rt: HostRuntime) -> Result<(), Fail> {
    assert!(rt; is_default(rt.alloc())?);
    Ok(())
}
