//! `zenoh_drive` drives a Zenoh session by a script on standard input, and prints every answer and hand-over.
#![tactic(auto)]

use std::alloc::{AllocError, Global};
use std::process::ExitCode;
use std::rt::Env;
use std::sync::Wait;
use std::thread::Threads;
use std::{env, io};
use zs_modes::run;
use zs_session::{StdSink, StdSource};

/// The statuses that the program ends with by itself; all others are those of `run`.
const BAD_WORDS: u8 = 2;

const WRITE_FAULT: u8 = 7;

const NO_MEMORY: u8 = 8;

const USAGE: &str = "\
usage: zenoh_drive [drive [SETTING]..]  drives a session by the script on standard input
       zenoh_drive soak SEED N          drives one in memory by a script of N puts that
                                        SEED makes, and prints how many events it had, and
                                        how many samples were handed, messages sent and
                                        events refused: SEED up to 65536, N up to 100000
       zenoh_drive workers K N          lets K callers put N times each through one session,
                                        each on a thread of its own, and prints how many
                                        entries its journal has, how many events the callers
                                        count together, and how many samples were handed:
                                        K from 1 to 64, N up to 10000
       zenoh_drive link [SETTING]..     drives two sessions, a and b, whose messages go to
                                        each other, by the lines on standard input
       zenoh_drive --help               prints this
       zenoh_drive --version            prints the version

The settings come in any order, each at most once but the last two, which keep
their order among themselves. In brackets: what it is without.
  zid=HEX       the session's identifier: 1 to 32 hexadecimal digits, not 0 (1)
  tag=N         what the keys that it declares are marked with:
                up to 18446744073709551615 (1)
  entity=N      the number before that of the first entity: up to 4294967294 (1)
  key=N         the number of the first declared key: 1 to 65535 (1)
  query=N       the number of the first get: up to 4294967295 (0)
  timeout=N     after how many milliseconds a get ends that doesn't say it itself:
                up to 18446744073709551615 (10000)
  line=N        the most bytes of a line: 1 to 1048576 (65536)
  turns=N       the most reads of the input: 1 to 18446744073709551615 (4294967296)
  aggsub=KEY    a key expression: subscribers on keys that it includes are told to
                the network as one subscriber on it (none)
  aggpub=KEY    the same for publishers (none)
No N and no HEX begins with a 0 that could go.

A script line is one event. A tab stands between its fields:
  key KEY                       declares a key, and answers its number
  undeclare key #N              gives a declared key back
  sub LOC KEY [CHAN]            declares a subscriber
  undeclare KIND N              ends the one of that number: KIND is sub, pub, querier,
                                queryable, token, lsub or listener
  background KIND N             leaves it to itself, so that it can no longer be named:
                                KIND is sub, queryable, lsub or listener
  pub LOC KEY [OPTION]..        declares a publisher: enc prio cc express rel
  put LOC KEY BYTES [OPTION]..  puts a value: enc ts prio cc express rel src att
  delete LOC KEY [OPTION]..     deletes a value: ts prio cc express rel src att
  pput N BYTES [OPTION]..       a publisher puts: enc ts src att
  pdel N [OPTION]..             a publisher deletes: ts src att
  get LOC SELECTOR [OPTION]..   asks for values, and answers the get's number:
                                target cons timeout payload enc prio cc express src
                                att accept token to
  querier LOC KEY [OPTION]..    declares a querier, whose gets ask in its way:
                                target cons timeout prio cc express accept
  qget N [OPTION]..             a querier asks: params payload enc src att token to
  queryable LOC complete KEY    declares a queryable that knows all values of its key
  queryable LOC partial KEY     declares one that need not
  reply N KEY BYTES [OPTION]..  answers the query handed out under number N:
                                enc ts prio cc express src att
  replydel N KEY [OPTION]..     answers that a value is deleted: all but enc
  replyerr N BYTES [enc=TEXT]   answers with an error
  share N, finish N             draws one more number for the query; gives one back
  token KEY                     declares a liveliness token
  lsub history KEY              declares a subscriber to tokens, told of earlier ones too
  lsub live KEY                 declares one that is told of later ones alone
  lget KEY [OPTION]..           asks for the tokens that are alive: timeout token to
  listen pub N, listen querier N  declares a listener: it hears each time when it changes
                                whether anyone matches the publisher or querier
  status pub N, status querier N  answers 1 where anyone matches it, else 0
  ctoken                        makes a cancellation token, and answers its number
  cancel N                      ends the open gets that were given it
  recv sub N, recv get N, recv lget N  takes the first item out of the channel of that
                                subscriber or get
  tick N                        tells the moment, in milliseconds
  close                         closes the session, as the end of input does
  net keyexpr N WIRE            the network tells what its number N stands for
  net unkeyexpr N               it gives the number back, which changes nothing
  net sub N WIRE                it declares a subscriber; net unsub N ends it
  net queryable N complete WIRE, net queryable N partial WIRE
                                it declares a queryable; net unqueryable N ends it
  net token N WIRE [interest=N] it tells of a token that is alive
  net untoken N [WIRE] [interest=N]  it tells that a token lives no longer
  net declarefinal [interest=N] it has told all tokens that the lget N asked for
  net push WIRE put BYTES [..]  a put comes in from the network, options as put's
  net push WIRE del [OPTION]..  a deletion comes in, options as delete's
  net request N WIRE [OPTION]..             a query comes in: params target cons timeout
                                payload enc prio cc express src att
  net response N WIRE put BYTES [OPTION]..  a value for get N: enc ts prio cc express
                                src att by
  net response N WIRE del [OPTION]..        a deletion for it: all but enc
  net response N WIRE err BYTES [OPTION]..  an error for it: enc prio cc express by
  net responsefinal N           the network has no more for get N
  net close                     the other side closed, which changes nothing
LOC is any, local or remote. KEY is a key expression, or #N or #N:TEXT for the
declared key N with a text behind it. SELECTOR is KEY, or KEY?TEXT with parameters
behind the first ?. WIRE is s0:TEXT, or sN:TEXT for a number of the network, or
rN:TEXT for one of this session. BYTES is x and hexadecimal digits, two for each
byte. CHAN is where items go beside being printed: print (nowhere), fifo:N (all of them,
in order) or ring:N (the last N), N from 1 to 65535.

An option is a field NAME=VALUE. Options stand behind the other fields, in the order
given, each at most once:
  enc=TEXT   the encoding           ts=N:HEX      a time, and who took it
  prio=N     1 to 7 (on net 0 to 7) cc=WORD       drop or block
  express=N  0 or 1                 rel=N         0 or 1
  src=HEX:N:N  the session, the entity and a number in its sequence
  att=BYTES  bytes beside the payload
  params=TEXT  what a selector has behind its first ?
  target=WORD  which queryables are asked: best, all or allcomplete
  cons=WORD    which replies on one key are handed out: auto, none, monotonic or latest
  timeout=N    after how many milliseconds the get ends
  payload=BYTES  what is sent with the get
  accept=any   replies are taken on any key
  by=HEX:N     who replies: the session and the entity
  token=N      the cancellation token that can end the get
  to=CHAN      where replies go beside being printed
  interest=N   the lget that a message answers

A line of link is a or b and a script line that is no net, no recv and has no CHAN:
that side takes it. Or it is ab or ba: the oldest message that waits at a (or b) is
delivered. b has the zid 2, the tag 2 and else the settings of a, which has neither.

Status: 0 the end was reached; 2 bad words; 3 a line is no event; 4 a line is too
long; 5 too many reads; 6 the input failed; 7 the output failed; 8 no memory.
";

/// The words behind the program's name.
fn words(rt: &(impl Env + AllocGlobal)) -> io::Result<Vec<String>> {
    let mut words = Vec::new(rt.alloc());
    for word in env::args(rt)?.skip(1) {
        words.push(word).map_err(|_| AllocError)?;
    }
    Ok(words)
}

/// Prints a text, and returns the exit status.
fn printed(rt: &impl Print, text: &str) -> u8 {
    match rt.print(text) {
        Ok(()) => 0,
        Err(_) => WRITE_FAULT,
    }
}

/// Writes a complaint, and returns its exit status. A fault of standard error changes nothing.
fn refused(rt: &impl Eprint, complaint: &str, status: u8) -> u8 {
    let _ = rt.eprintln(complaint);
    status
}

/// What the program does with its words, and its exit status. Only `main` can pass the right to wait and to start threads, so
/// it passes the runtime twice: the second time as that right.
fn status(host: &HostRuntime, rt: &(impl Wait + Threads + Sync), alloc: Global) -> u8 {
    let words = match words(host) {
        Ok(words) => words,
        Err(error) if error.kind() == io::ErrorKind::OutOfMemory => {
            return refused(host, "NoMemory", NO_MEMORY);
        }
        Err(_) => return refused(host, "bad words", BAD_WORDS),
    };
    match words.as_slice() {
        [word] if word.as_str() == "--help" => printed(host, USAGE),
        [word] if word.as_str() == "--version" => printed(host, "zenoh_drive 0.1.0\n"),
        words => run(
            rt,
            alloc,
            words,
            &mut StdSource::new(host.stdin()),
            &mut StdSink::new(host.stdout()),
            &mut StdSink::new(host.stderr()),
        ),
    }
}

/// Runs the program on the host. It exits with what `status` answers.
fn main(rt: HostRuntime) -> ExitCode {
    ExitCode::from(status(&rt, &rt, rt.alloc()))
}
