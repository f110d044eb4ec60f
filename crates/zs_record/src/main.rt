//! `zs_record` records a Zenoh session that takes a script on standard input, or plays such a recording again.
#![tactic(auto)]

use std::alloc::{AllocError, Global};
use std::process::ExitCode;
use std::rt::Env;
use std::{env, io};
use zs_driving::{StdSink, StdSource};
use zs_recordings::record_run;

/// The statuses that the program ends with by itself; all others are those of `record_run`.
const BAD_WORDS: u8 = 2;

const WRITE_FAULT: u8 = 7;

const NO_MEMORY: u8 = 8;

const USAGE: &str = "\
usage: zs_record record     records the script on standard input
       zs_record replay     plays the recording on standard input again
       zs_record --help     prints this
       zs_record --version  prints the version

A script is that of zenoh_drive: each line is one event of a session with the default
settings, and the end of input closes the session. Reads of channels (recv) are no
events of the session, and are not recorded.

A recording has a line for each event: > and a tab, and then the event. Behind it
stand the lines that the event comes to, each behind < and a tab:
  >  sub  any  k
  <  1    ok   2
  <  1    send sub  2  s0:k
An option stands in the line of an event only where it says more than its absence.

A replay takes the events of the > lines anew, and compares what comes of them with
the < lines. It prints same, a tab and N, where it is the same for all N events, or
differs, a tab and I, where it is something else for event I, and for none before it.

Status: 0 the end was reached, and the recording is the same; 1 it differs; 2 bad
words; 3 a line is none of a script, or of a recording; 4 a line is too long; 5 too
many reads; 6 the input failed; 7 the output failed; 8 no memory.
";

/// The words behind the program's name.
fn words(rt: &(impl Env + AllocGlobal)) -> io::Result<Vec<String>> {
    let mut words = Vec::new(rt.alloc());
    for word in env::args(rt)?.skip(1) {
        words.push(word).map_err(|_| AllocError)?;
    }
    Ok(words)
}

/// Prints a text, and returns the exit status.
fn printed(rt: &impl Print, text: &str) -> u8 {
    match rt.print(text) {
        Ok(()) => 0,
        Err(_) => WRITE_FAULT,
    }
}

/// Writes a complaint, and returns its exit status. A fault of standard error changes nothing.
fn refused(rt: &impl Eprint, complaint: &str, status: u8) -> u8 {
    let _ = rt.eprintln(complaint);
    status
}

/// What the program does with its words, and its exit status.
fn status(rt: &HostRuntime, alloc: Global) -> u8 {
    let words = match words(rt) {
        Ok(words) => words,
        Err(error) if error.kind() == io::ErrorKind::OutOfMemory => {
            return refused(rt, "NoMemory", NO_MEMORY);
        }
        Err(_) => return refused(rt, "bad words", BAD_WORDS),
    };
    match words.as_slice() {
        [word] if word.as_str() == "--help" => printed(rt, USAGE),
        [word] if word.as_str() == "--version" => printed(rt, "zs_record 0.1.0\n"),
        words => record_run(
            alloc,
            words,
            &mut StdSource::new(rt.stdin()),
            &mut StdSink::new(rt.stdout()),
            &mut StdSink::new(rt.stderr()),
        ),
    }
}

/// Runs the program on the host. It exits with what `status` answers.
fn main(rt: HostRuntime) -> ExitCode {
    ExitCode::from(status(&rt, rt.alloc()))
}
