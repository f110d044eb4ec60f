//! `zs_group` keeps a group of two linked Zenoh sessions: a member joins by a liveliness token, and each side sees who is in the
//! group and how often.
#![tactic(auto)]

use std::alloc::{AllocError, Global};
use std::process::ExitCode;
use std::rt::Env;
use std::{env, io};
use zs_driving::{StdSink, StdSource};
use zs_groups::group_run;

/// The statuses that the program ends with by itself; all others are those of `group_run`.
const BAD_WORDS: u8 = 2;

const WRITE_FAULT: u8 = 7;

const NO_MEMORY: u8 = 8;

const USAGE: &str = "\
usage: zs_group            keeps a group of two linked sessions, a and b,
                           by the lines on standard input
       zs_group --help     prints this
       zs_group --version  prints the version

A tab stands between the fields of a line. SIDE is a or b, and NAME has 1 to 64 of the
letters a to z and the digits:
  SIDE join NAME   joins the group under a name, once more if it did before
  SIDE leave NAME  leaves it once: of the side's tokens of that name the oldest one ends
  SIDE view        shows whom the side sees
  ab               delivers all messages of a that wait to b
  ba               delivers all messages of b that wait to a

Output lines begin with the number of the line, from 1, and a tab:
  ok, ok N              it was done; N is how many messages there were
  refused NAME          NotMember: the side has no token of that name; IdsExhausted: no
                        number is left
  SIDE sees NAME COUNT  a name that the side sees, and how often: its own tokens and
                        those that it was told of the other side's, the names ascending

Status: 0 the end was reached; 2 bad words; 3 a line is none of these; 4 a line is too
long; 5 too many reads; 6 the input failed; 7 the output failed; 8 no memory.
";

/// The words behind the program's name.
fn words(rt: &(impl Env + AllocGlobal)) -> io::Result<Vec<String>> {
    let mut words = Vec::new(rt.alloc());
    for word in env::args(rt)?.skip(1) {
        words.push(word).map_err(|_| AllocError)?;
    }
    Ok(words)
}

/// Prints a text, and returns the exit status.
fn printed(rt: &impl Print, text: &str) -> u8 {
    match rt.print(text) {
        Ok(()) => 0,
        Err(_) => WRITE_FAULT,
    }
}

/// Writes a complaint, and returns its exit status. A fault of standard error changes nothing.
fn refused(rt: &impl Eprint, complaint: &str, status: u8) -> u8 {
    let _ = rt.eprintln(complaint);
    status
}

/// What the program does with its words, and its exit status.
fn status(rt: &HostRuntime, alloc: Global) -> u8 {
    let words = match words(rt) {
        Ok(words) => words,
        Err(error) if error.kind() == io::ErrorKind::OutOfMemory => {
            return refused(rt, "NoMemory", NO_MEMORY);
        }
        Err(_) => return refused(rt, "bad words", BAD_WORDS),
    };
    match words.as_slice() {
        [word] if word.as_str() == "--help" => printed(rt, USAGE),
        [word] if word.as_str() == "--version" => printed(rt, "zs_group 0.1.0\n"),
        words => group_run(
            alloc,
            words,
            &mut StdSource::new(rt.stdin()),
            &mut StdSink::new(rt.stdout()),
            &mut StdSink::new(rt.stderr()),
        ),
    }
}

/// Runs the program on the host. It exits with the number that its usage text gives for what its words come to.
fn main(rt: HostRuntime) -> ExitCode {
    ExitCode::from(status(&rt, rt.alloc()))
}
