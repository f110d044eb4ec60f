//! A home's keys, entities and values, of nearly all kinds: the run that the program is stored with.

use super::{Transcript, assert_printed};
use std::test::Fail;

/// Its script, with what it prints.
pub(crate) const HOME: Transcript = Transcript {
    name: "a home",
    text: "\
key home/kitchen
< 1 ok 1
< 1 send keyexpr 1 s0:home/kitchen
sub any home/**
< 2 ok 2
< 2 send sub 2 s0:home/**
sub remote home/*/temp
< 3 ok 3
< 3 send sub 3 s0:home/*/temp
pub any #1:/temp enc=application/json
< 4 ok 4
< 4 send interest 4 currentfuture subscribers s1:/temp
queryable any complete home/kitchen/**
< 5 ok 5
< 5 send queryable 5 complete s0:home/kitchen/**
token home/kitchen
< 6 ok 6
< 6 send token 6 s0:home/kitchen
pput 4 x7b7d
< 7 ok
< 7 send push s1:/temp put x7b7d enc=application/json prio=5 cc=drop express=0 rel=1
< 7 hand sub 2 put home/kitchen/temp x7b7d enc=application/json prio=5 cc=drop express=0 rel=1
net push s0:home/hall/temp put x3231
< 8 ok
< 8 hand sub 2 put home/hall/temp x3231 enc=zenoh/bytes prio=5 cc=drop express=0 rel=1
< 8 hand sub 3 put home/hall/temp x3231 enc=zenoh/bytes prio=5 cc=drop express=0 rel=1
get any home/kitchen/temp cons=none
< 9 ok 0
< 9 send request 0 s0:home/kitchen/temp target=best cons=none timeout=10000 prio=5 cc=block express=0
< 9 hand queryable 5 0 home/kitchen/temp prio=5 cc=block express=0
reply 0 home/kitchen/temp x3231
< 10 ok
< 10 reply get 0 put home/kitchen/temp x3231 enc=zenoh/bytes prio=5 cc=block express=0 rel=1 by=1:5
finish 0
< 11 ok
net responsefinal 0
< 12 ok
< 12 end get 0
tick 100
< 13 ok
undeclare token 6
< 14 ok
< 14 send untoken 6
close
< 15 ok
< 15 send close
< 15 end queryable 5
< 15 end sub 2
< 15 end sub 3
< 16 ok",
};

/// The run of a home prints what its transcript says.
#[test]
fn the_home_is_printed(rt: HostRuntime) -> Result<(), Fail> {
    assert_printed(&rt, "drive", &[HOME])
}
