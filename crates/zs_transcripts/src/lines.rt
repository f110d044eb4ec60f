//! Lines one by one: what event each is.

use crate::spelling::spelled_line;
use std::alloc::{AllocError, Global};
use std::process::Abort;
use std::test::Fail;
use zs_event_lines::print_event;
use zs_events::{Event, ScriptEvent};
use zs_script::{Line, parse_event};

/// Declarations, keys and what ends them.
const DECLARATIONS: &str = "\
sub any test/k
sub local a//b
sub remote 
sub any #x
sub any #65536
sub any #1
sub any #1: => sub any #1
sub any #1:x:y
sub any #01
sub any #1x
key #65535:/b
key a//b
key => nothing
undeclare key #0
sub any k  => nothing
undeclare sub 0
undeclare sub 4294967295
undeclare sub 4294967296 => nothing
undeclare sub 02 => nothing
undeclare sub +2 => nothing
undeclare pub 2
undeclare kind 2 => nothing
background sub 2
background pub 2 => nothing
background sub => nothing
pub local #7
pub any k enc=a prio=7 cc=drop express=0 rel=0 => pub any k enc=a prio=7 rel=0
pub any k ts=1:1 => nothing
net keyexpr 7 s0:a:b
net keyexpr 65536 s0:a => nothing
net unkeyexpr 7
net unkeyexpr 7 s0:a => nothing
net close
close
close  => nothing
 => nothing
pub any k enc=zenoh/bytes prio=5 cc=drop express=0 rel=1 => pub any k";

/// Puts and deletes, and pushes of the network.
const PUBLICATIONS: &str = "\
pput 2 x01
pput 2 x01 enc= => pput 2 x01 enc=zenoh/bytes
pput 2 x01 enc=zenoh/bytes
pput 2 x01 enc=a
pput 2 x01 prio=1 => nothing
pput 2 => nothing
pdel 2 ts=3:fF => pdel 2 ts=3:ff
pdel 2 x01 => nothing
delete any k
delete any k ts=3:fF => delete any k ts=3:ff
delete any k enc=a => nothing
put any test/k x7a656e6f68
put local é xFf => put local é xff
put any k x
put any k x enc= => put any k x
put any k x enc=zenoh/bytes => put any k x
put any k x prio=7 rel=0
put any k x rel=0 prio=7 => nothing
put any k x prio=7 prio=7 => nothing
put any k x prio=0 => nothing
put any k x prio=8 => nothing
put any k x ts=1: => nothing
put any k x ts=1:00 => nothing
put any k x cc= => nothing
put any k x express=2 => nothing
put any k x src=1:2 => nothing
put any k x src=1:2:3:4 => nothing
put any k x att=01 => nothing
put any k x level=1 => nothing
put any k x  => nothing
put any k x1 => nothing
put any k 01 => nothing
net push s0:k put x01
net push r65535: put x
net push s0k put x01 => nothing
net push s65536:k put x01 => nothing
net push t0:k put x01 => nothing
net push s0:k del x01 => nothing
net push s0:k del prio=0
net push s0:k del enc=a => nothing
put any k x enc=a prio=5 cc=drop express=0 rel=1 => put any k x enc=a
net push s0:k put x01 enc=zenoh/bytes prio=5 cc=drop express=0 rel=1 => net push s0:k put x01";

/// Gets, moments, and responses of the network.
const GETS: &str = "\
get any a
get local #1:/b?x=1?; target=all cons=none timeout=7 payload=x01 prio=2 accept=any
get remote ? target=allcomplete cons=latest enc=a => get remote  target=allcomplete cons=latest payload=x enc=a
get any a accept=match => nothing
get any a cons=latest target=all => nothing
get any a prio=0 => nothing
get any a cons=last => nothing
get any => nothing
tick 18446744073709551615
tick 18446744073709551616 => nothing
tick  => nothing
net response 4 s7:k put x01 ts=1:b prio=0 by=b:3
net response 4 s0:k del
net response 4 s0:k err x45 enc=a
net response 4 s0:k del enc=a => nothing
net response 4 s0:k err x45 ts=1:b => nothing
net response 4294967296 s0:k del => nothing
net responsefinal 4
net responsefinal 4 s0:k => nothing
get any a target=best cons=auto prio=5 cc=block express=0 => get any a
net response 4 s0:k del prio=5 => net response 4 s0:k del";

/// Queryables, replies, and requests of the network.
const QUERIES: &str = "\
queryable any complete a/*
queryable local partial #1:/b
queryable any a/* => nothing
queryable any whole a/* => nothing
undeclare queryable 2
background queryable 2
reply 0 a x01
reply 0 a x01 prio=7
reply 0 a x01 enc=zenoh/bytes => reply 0 a x01
reply 0 a x01 enc=text/plain
reply 0 a x01 prio=0 => nothing
reply 0 a x01 rel=1 => nothing
reply 00 a x01 => nothing
replydel 7 #1: ts=1:b => replydel 7 #1 ts=1:b
replydel 7 a express=1
replydel 7 a enc=a => nothing
replyerr 7 x45
replyerr 7 x45 enc=a
replyerr 7 x45 prio=1 => nothing
share 4294967295
share 4294967296 => nothing
finish 0
finish => nothing
net request 9 s0:a/b
net request 9 r1: params=x=1; target=all cons=none timeout=7 enc=a prio=0 => net request 9 r1: params=x=1; target=all cons=none timeout=7 payload=x enc=a prio=0
net request 9 s0:a accept=any => nothing
net request 9 s0:a?x
net request s0:a => nothing
net request 9 s0:a target=best cons=auto timeout=10000 prio=5 => net request 9 s0:a";

/// Queriers, their gets, and cancellation tokens.
const QUERIERS: &str = "\
querier any k
querier remote #1:/b target=all cons=none timeout=7 prio=2 accept=any
querier any k accept=any target=all => nothing
querier k => nothing
undeclare querier 2
background querier 2 => nothing
qget 2
qget 2 params=x=1 payload=x07 token=3
qget 2 token=3 params=x => nothing
qget 2 timeout=3 => nothing
ctoken
ctoken 0 => nothing
cancel 4294967295
cancel 01 => nothing
querier any k target=best cons=auto prio=5 => querier any k";

/// Liveliness, of the application and of the network.
const LIVELINESS: &str = "\
token a/b
undeclare token 3
background token 3 => nothing
lsub history k
lsub live #7
lsub k => nothing
undeclare lsub 3
background lsub 3
lget k
lget k timeout=9 token=1
lget k token=1 timeout=9 => nothing
net token 5 s0:k
net token 5 r1: interest=3
net untoken 5
net untoken 5 s0: => net untoken 5
net untoken 5 s0:k interest=3
net untoken s0:k => nothing
net declarefinal
net declarefinal interest=3
net declarefinal 3 => nothing";

/// Matching listeners, and what the network declares.
const MATCHING: &str = "\
listen pub 2
listen querier 3
listen sub 2 => nothing
status pub 2
status querier 4294967295
status querier => nothing
undeclare listener 4
background listener 4
net sub 9 s0:k
net unsub 9
net unsub 9 s0:k => nothing
net queryable 4 partial r7:
net queryable 4 complete s0:a/**
net queryable 4 s0:a => nothing
net unqueryable 4";

/// Channels, and items taken from them.
const CHANNELS: &str = "\
sub any k print => sub any k
sub any k fifo:1
sub any k ring:65535
sub any k ring:65536 => nothing
sub any k fifo:0 => nothing
sub any k fifo:01 => nothing
sub any k fifo => nothing
qget 2 token=0 to=ring:2
qget 2 to=ring:2 token=0 => nothing
lget k to=fifo:7
lget k to=print => lget k
put any k x to=print => nothing
recv sub 2 => recv Subscriber 2
recv get 0 => recv Get 0
recv lget 3 => recv LivelinessGet 3
recv lsub 3 => nothing
recv sub => nothing";

/// The text of an event of the session.
fn text_of(alloc: Global, event: &Event) -> Result<String, AllocError> {
    match print_event(alloc, event)? {
        Some(text) => Ok(text),
        None => String::from_str(alloc, "no line"),
    }
}

/// An event, printed with those options alone whose value is not what their absence says.
fn printed(alloc: Global, event: &ScriptEvent) -> Result<String, AllocError> {
    match event {
        ScriptEvent::Core(event) => text_of(alloc, event),
        ScriptEvent::Recv { kind, number } => format!(in alloc; "recv\t{kind:?}\t{number}"),
    }
}

/// The event of a line, printed so.
fn read_as(alloc: Global, bytes: Vec<u8>) -> Result<String, AllocError> {
    let line = Line { number: 1, bytes };
    match parse_event(alloc, &line)? {
        Some(event) => printed(alloc, &event),
        None => String::from_str(alloc, "nothing"),
    }
}

/// Whether a line is read and printed as it is, or as what stands behind its arrow.
fn is_read(alloc: Global, row: &str) -> Result<bool, AllocError> {
    let (line, want) = row.split_once(" => ").unwrap_or((row, row));
    let is = read_as(alloc, spelled_line(alloc, line)?)?;
    let want = spelled_line(alloc, want)?;
    Ok(is.as_bytes() == want.as_slice())
}

/// Each of these lines is read so.
fn assert_read(rt: &impl Abort, alloc: Global, lines: &str) -> Result<(), AllocError> {
    for row in lines.lines() {
        let is_read = is_read(alloc, row)?;
        assert!(*rt; is_read, "at {row}");
    }
    Ok(())
}

/// Each line of the tables above is its event, and prints as it is or as its row says.
#[test]
fn lines_are_read(rt: HostRuntime) -> Result<(), Fail> {
    let tables = [
        DECLARATIONS,
        PUBLICATIONS,
        GETS,
        QUERIES,
        QUERIERS,
        LIVELINESS,
        MATCHING,
        CHANNELS,
    ];
    for lines in tables {
        assert_read(&rt, rt.alloc(), lines)?;
    }
    Ok(())
}

/// Whether a line of these bytes has no event.
fn has_no_event(alloc: Global, bytes: &[u8]) -> Result<bool, AllocError> {
    let is = read_as(alloc, Vec::from_slice(alloc, bytes)?)?;
    Ok(is.as_str() == "nothing")
}

/// Spaces in the place of tabs, and bytes that are no UTF-8, make no event.
#[test]
fn lines_without_tabs_or_that_are_no_text_have_no_event(rt: HostRuntime) -> Result<(), Fail> {
    for bytes in [b"sub any k".as_slice(), b"sub\tany\t\xff".as_slice()] {
        let has_none = has_no_event(rt.alloc(), bytes)?;
        assert!(rt; has_none, "of {bytes:?}");
    }
    Ok(())
}
