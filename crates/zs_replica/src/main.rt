//! `zs_replica` keeps a replicated store on each of two linked Zenoh sessions: of all that was written at a key, by whichever
//! side and in whatever order, the newest entry stands.
#![tactic(auto)]

use running::replica_run;
use std::alloc::{AllocError, Global};
use std::process::ExitCode;
use std::rt::Env;
use std::{env, io};
use zs_driving::{StdSink, StdSource};

mod laws;
mod machine;
mod running;
mod sides;

/// The statuses that the program ends with by itself; all others are those of `replica_run`.
const BAD_WORDS: u8 = 2;

const WRITE_FAULT: u8 = 7;

const NO_MEMORY: u8 = 8;

const USAGE: &str = "\
usage: zs_replica            keeps a store on each of two linked sessions, a and b,
                             by the lines on standard input
       zs_replica --help     prints this
       zs_replica --version  prints the version

A tab stands between the fields of a line. SIDE is a or b, KEY is a key expression,
BYTES is x and hexadecimal digits, two for each byte, and TS is N:HEX, a time and who
took it:
  SIDE put KEY BYTES TS  puts a value at a key below r
  SIDE del KEY TS        deletes the value of a key below r
  SIDE get KEY           asks both stores, and answers the get's number
  SIDE dump              shows the side's store
  ab                     delivers all messages of a that wait to b
  ba                     delivers all messages of b that wait to a

Of two entries of a key the one with the later timestamp is the newer one; where the
timestamps are the same, a deletion is newer than a put, and then the greater bytes are.

Output lines begin with the number of the line, from 1, and a tab:
  ok, ok N               it was done; N is the get's number, or how many messages there were
  refused NAME           BadKeyExpr: the key is no canonical key expression; WildKey: a key
                         that is written has a *; Outside: it is neither r nor below it; IdsExhausted:
                         no number is left
  SIDE has KEY put BYTES TS, SIDE has KEY del TS
                         a key of the store, the keys ascending by their bytes
  SIDE got N KEY put BYTES TS, SIDE got N KEY del TS
                         the get N is handed the newest entry of a key
  SIDE end N             the get N ended

Status: 0 the end was reached; 2 bad words; 3 a line is none of these; 4 a line is too
long; 5 too many reads; 6 the input failed; 7 the output failed; 8 no memory.
";

/// The words behind the program's name.
fn words(rt: &(impl Env + AllocGlobal)) -> io::Result<Vec<String>> {
    let mut words = Vec::new(rt.alloc());
    for word in env::args(rt)?.skip(1) {
        words.push(word).map_err(|_| AllocError)?;
    }
    Ok(words)
}

/// Prints a text, and returns the exit status.
fn printed(rt: &impl Print, text: &str) -> u8 {
    match rt.print(text) {
        Ok(()) => 0,
        Err(_) => WRITE_FAULT,
    }
}

/// Writes a complaint, and returns its exit status. A fault of standard error changes nothing.
fn refused(rt: &impl Eprint, complaint: &str, status: u8) -> u8 {
    let _ = rt.eprintln(complaint);
    status
}

/// What the program does with its words, and its exit status.
fn status(rt: &HostRuntime, alloc: Global) -> u8 {
    let words = match words(rt) {
        Ok(words) => words,
        Err(error) if error.kind() == io::ErrorKind::OutOfMemory => {
            return refused(rt, "NoMemory", NO_MEMORY);
        }
        Err(_) => return refused(rt, "bad words", BAD_WORDS),
    };
    match words.as_slice() {
        [word] if word.as_str() == "--help" => printed(rt, USAGE),
        [word] if word.as_str() == "--version" => printed(rt, "zs_replica 0.1.0\n"),
        words => replica_run(
            alloc,
            words,
            &mut StdSource::new(rt.stdin()),
            &mut StdSink::new(rt.stdout()),
            &mut StdSink::new(rt.stderr()),
        ),
    }
}

/// Runs the program on the host. It exits with what `status` answers.
fn main(rt: HostRuntime) -> ExitCode {
    ExitCode::from(status(&rt, rt.alloc()))
}
