//! A run over many kinds of events.

use super::{Transcript, assert_printed};
use std::test::Fail;

/// The words of that run.
pub(crate) const WORDS: &str = "drive aggsub=home/**";

/// Its script, with what it prints.
pub(crate) const MANY_KINDS: Transcript = Transcript {
    name: "many kinds of events",
    text: "\
key home/kitchen
< 1 ok 1
< 1 send keyexpr 1 s0:home/kitchen
sub any #1:/*
< 2 ok 2
< 2 send sub 2 s0:home/**
sub remote home/*/temp
< 3 ok 3
pub any #1:/temp enc=application/json
< 4 ok 4
< 4 send interest 4 currentfuture subscribers s1:/temp
pput 4 x7b7d
< 5 ok
< 5 send push s1:/temp put x7b7d enc=application/json prio=5 cc=drop express=0 rel=1
< 5 hand sub 2 put home/kitchen/temp x7b7d enc=application/json prio=5 cc=drop express=0 rel=1
pdel 4 ts=1:b
< 6 ok
< 6 send push s1:/temp del ts=1:b prio=5 cc=drop express=0 rel=1
< 6 hand sub 2 del home/kitchen/temp x enc=zenoh/bytes ts=1:b prio=5 cc=drop express=0 rel=1
put local home/kitchen/light x31 prio=2 att=x02
< 7 ok
< 7 hand sub 2 put home/kitchen/light x31 enc=zenoh/bytes prio=2 cc=drop express=0 rel=1 att=x02
delete remote home/hall/light
< 8 ok
< 8 send push s0:home/hall/light del prio=5 cc=drop express=0 rel=1
net keyexpr 7 s0:home
< 9 ok
net push s7:/kitchen/temp put x3231
< 10 ok
< 10 hand sub 2 put home/kitchen/temp x3231 %
< 10 hand sub 3 put home/kitchen/temp x3231 %
net unkeyexpr 7
< 11 ok
net push s8: del
< 12 refused UnknownScope
get any #1:/temp?unit=c cons=none timeout=20
< 13 ok 0
< 13 send request 0 s1:/temp params=unit=c target=best cons=none timeout=20 G
net response 0 s0:home/kitchen/temp put x3231 by=b:3
< 14 ok
< 14 reply get 0 put home/kitchen/temp x3231 enc=zenoh/bytes G rel=1 by=b:3
net response 0 s0:home/kitchen/temp err x45
< 15 ok
< 15 reply get 0 err x45 enc=zenoh/bytes
tick 20
< 16 ok
< 16 reply get 0 err x54696d656f7574 enc=zenoh/string
< 16 end get 0
net responsefinal 0
< 17 refused Ignored
get remote home/hall
< 18 ok 1
< 18 send request 1 s0:home/hall target=best cons=latest timeout=10000 G
net responsefinal 1
< 19 ok
< 19 end get 1
background sub 3
< 20 ok
undeclare sub 3
< 21 refused NotFound
undeclare sub 2
< 22 ok
< 22 end sub 2
undeclare pub 4
< 23 ok
< 23 send interest 4 final subscribers
undeclare key #1
< 24 ok
< 24 send unkeyexpr 1
net close
< 25 ok
close
< 26 ok
< 26 send close
< 26 end sub 3
put any home/hall x
< 27 refused SessionClosedError
< 28 ok",
};

/// A run over events of many kinds, with an aggregate, prints what its transcript says.
#[test]
fn many_kinds_are_printed(rt: HostRuntime) -> Result<(), Fail> {
    assert_printed(&rt, WORDS, &[MANY_KINDS])
}
