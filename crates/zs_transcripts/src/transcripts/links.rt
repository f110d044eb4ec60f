//! Two linked sessions: what each sends waits until a line delivers it.

use super::{Transcript, assert_printed};
use std::test::Fail;

static LINKS: [Transcript; 6] = [
    Transcript {
        name: "a put is handed to a subscriber of the other side, once",
        text: "\
b sub any k
< 1 b ok 2
< 1 b send sub 2 s0:k
ba
< 2 a ok
a put any k x01
< 3 a ok
< 3 a send push s0:k put x01 %
ab
< 4 b ok
< 4 b hand sub 2 put k x01 %
ab
< 5 none
< 6 a ok
< 6 a send close
< 6 b ok
< 6 b send close
< 6 b end sub 2",
    },
    Transcript {
        name: "a put for its own session alone is not sent",
        text: "\
b sub remote k
< 1 b ok 2
< 1 b send sub 2 s0:k
ba
< 2 a ok
a put local k x01
< 3 a ok
ab
< 4 none
< 5 a ok
< 5 a send close
< 5 b ok
< 5 b send close
< 5 b end sub 2",
    },
    Transcript {
        name: "a publisher with a declared key, whose interest is dropped",
        text: "\
b sub any k/**
< 1 b ok 2
< 1 b send sub 2 s0:k/**
a key k
< 2 a ok 1
< 2 a send keyexpr 1 s0:k
a pub any #1:/1
< 3 a ok 2
< 3 a send interest 2 currentfuture subscribers s1:/1
a pput 2 x01
< 4 a ok
< 4 a send push s1:/1 put x01 %
ab
< 5 b ok
ab
< 6 dropped
ab
< 7 b ok
< 7 b hand sub 2 put k/1 x01 %
a pdel 2
< 8 a ok
< 8 a send push s1:/1 del prio=5 cc=drop express=0 rel=1
b close
< 9 b ok
< 9 b send close
< 9 b end sub 2
ab
< 10 b refused Ignored
ba
< 11 a ok
ba
< 12 a ok
< 13 a ok
< 13 a send close
< 13 b ok",
    },
    Transcript {
        name: "a get that a queryable of the other side answers",
        text: "\
b queryable any complete k
< 1 b ok 2
< 1 b send queryable 2 complete s0:k
ba
< 2 a ok
a get remote k
< 3 a ok 0
< 3 a send request 0 s0:k target=best cons=latest timeout=10000 G
ab
< 4 b ok
< 4 b hand queryable 2 0 k G
b reply 0 k x05
< 5 b ok
< 5 b send response 0 s0:k put x05 enc=zenoh/bytes G by=2:2
b finish 0
< 6 b ok
< 6 b send responsefinal 0
ba
< 7 a ok
ba
< 8 a ok
< 8 a reply get 0 put k x05 enc=zenoh/bytes G rel=1 by=2:2
< 8 a end get 0
< 9 a ok
< 9 a send close
< 9 b ok
< 9 b send close
< 9 b end queryable 2",
    },
    Transcript {
        name: "a token that was there before its subscriber, and goes",
        text: "\
a token t/1
< 1 a ok 2
< 1 a send token 2 s0:t/1
ab
< 2 b ok
b lsub history t/**
< 3 b ok 2
< 3 b send interest 2 currentfuture tokens s0:t/**
< 3 b hand lsub 2 put t/1 x %
ba
< 4 dropped
a undeclare token 2
< 5 a ok
< 5 a send untoken 2
ab
< 6 b ok
< 6 b hand lsub 2 del t/1 x %
< 7 a ok
< 7 a send close
< 7 b ok
< 7 b send close
< 7 b end lsub 2",
    },
    Transcript {
        name: "a publisher's listener hears of subscribers of the other side",
        text: "\
a pub any k
< 1 a ok 2
< 1 a send interest 2 currentfuture subscribers s0:k
a listen pub 2
< 2 a ok 3
b sub any k
< 3 b ok 2
< 3 b send sub 2 s0:k
ba
< 4 a ok
< 4 a match 3 true
b undeclare sub 2
< 5 b ok
< 5 b send unsub 2
< 5 b end sub 2
ba
< 6 a ok
< 6 a match 3 false
< 7 a ok
< 7 a send close
< 7 a end listener 3
< 7 b ok
< 7 b send close",
    },
];

/// Messages of a linked session are delivered or dropped in their order, one for each line that asks.
#[test]
fn linked_sessions_deliver_in_order(rt: HostRuntime) -> Result<(), Fail> {
    assert_printed(&rt, "link", &LINKS)
}
