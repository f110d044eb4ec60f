//! Numbers that the network tells, and this session's own as the network names them.

use super::{Transcript, assert_printed};
use std::test::Fail;

static NETWORK: [Transcript; 4] = [
    Transcript {
        name: "a number that the network told",
        text: "\
net keyexpr 7 s0:a
< 1 ok
sub any a/*
< 2 ok 2
< 2 send sub 2 s0:a/*
net push s7:/b put x01
< 3 ok
< 3 hand sub 2 put a/b x01 %
net push s7:// put x01
< 4 refused BadKeyExpr
< 5 ok
< 5 send close
< 5 end sub 2",
    },
    Transcript {
        name: "a number of this session in a message",
        text: "\
key k
< 1 ok 1
< 1 send keyexpr 1 s0:k
sub any k
< 2 ok 2
< 2 send sub 2 s0:k
net push r1: put x01
< 3 ok
< 3 hand sub 2 put k x01 %
net push s1: put x01
< 4 refused UnknownScope
undeclare key #1
< 5 ok
< 5 send unkeyexpr 1
net push r1: put x01
< 6 refused UnknownScope
< 7 ok
< 7 send close
< 7 end sub 2",
    },
    Transcript {
        name: "the last text that was told stands, also where its number was given back",
        text: "\
sub any **
< 1 ok 2
< 1 send sub 2 s0:**
net keyexpr 0 s0:a
< 2 refused UnknownScope
net push s7:x put x01
< 3 refused UnknownScope
net keyexpr 7 s0:a
< 4 ok
net keyexpr 7 s0:b
< 5 ok
net push s7: put x01
< 6 ok
< 6 hand sub 2 put b x01 %
net unkeyexpr 7
< 7 ok
net push s7:/c put x01
< 8 ok
< 8 hand sub 2 put b/c x01 %
net push s0:a//b put x01
< 9 refused BadKeyExpr
< 10 ok
< 10 send close
< 10 end sub 2",
    },
    Transcript {
        name: "numbers told by other numbers, bad ones, and messages behind a close",
        text: "\
key k
< 1 ok 1
< 1 send keyexpr 1 s0:k
sub remote k/*/z
< 2 ok 2
< 2 send sub 2 s0:k/*/z
net keyexpr 8 r1:/x
< 3 ok
net keyexpr 9 s8:/z
< 4 ok
undeclare key #1
< 5 ok
< 5 send unkeyexpr 1
net push s9: put x
< 6 ok
< 6 hand sub 2 put k/x/z x %
net keyexpr 3 s2:a
< 7 refused UnknownScope
net keyexpr 0 s0:a//b
< 8 refused UnknownScope
net keyexpr 5 s0:a//b
< 9 refused BadKeyExpr
net unkeyexpr 4
< 10 ok
net close
< 11 ok
close
< 12 ok
< 12 send close
< 12 end sub 2
net keyexpr 1 s0:a
< 13 refused Ignored
net close
< 14 refused Ignored
net unkeyexpr 1
< 15 refused Ignored
net push s9: put x
< 16 refused Ignored
< 17 ok",
    },
];

/// Numbers in messages stand for what the side that they name has declared.
#[test]
fn numbers_of_the_network_stand_for_their_texts(rt: HostRuntime) -> Result<(), Fail> {
    assert_printed(&rt, "drive", &NETWORK)
}

static HOSTILE: [Transcript; 2] = [
    Transcript {
        name: "a number of this session that was given back",
        text: "\
key k
< 1 ok 1
< 1 send keyexpr 1 s0:k
undeclare key #1
< 2 ok
< 2 send unkeyexpr 1
net push r1: put x01
< 3 refused UnknownScope
< 4 ok
< 4 send close",
    },
    Transcript {
        name: "unknown, replaced and zero numbers, doubled finals, and responses behind the end",
        text: "\
sub any **
< 1 ok 2
< 1 send sub 2 s0:**
get remote k/* cons=none accept=any
< 2 ok 0
< 2 send request 0 s0:k/* params=_anyke target=best cons=none timeout=10000 G
net push s3: put x01
< 3 refused UnknownScope
net push r3: del
< 4 refused UnknownScope
net response 0 s3: put x01
< 5 refused UnknownScope
net response 7 s0:k put x01
< 6 refused Ignored
net response 7 s3: put x01
< 7 refused UnknownScope
net keyexpr 0 s0:k
< 8 refused UnknownScope
net keyexpr 3 s3:k
< 9 refused UnknownScope
net keyexpr 3 s0:k
< 10 ok
net keyexpr 3 s3:/a
< 11 ok
net response 0 s3:/b put x01
< 12 ok
< 12 reply get 0 put k/a/b x01 enc=zenoh/bytes G rel=1
net push s3: put x01
< 13 ok
< 13 hand sub 2 put k/a x01 %
net responsefinal 7
< 14 refused Ignored
net responsefinal 0
< 15 ok
< 15 end get 0
net responsefinal 0
< 16 refused Ignored
net response 0 s0:k/a put x01
< 17 refused Ignored
net response 0 s0:k/a err x01
< 18 refused Ignored
net unkeyexpr 0
< 19 ok
< 20 ok
< 20 send close
< 20 end sub 2",
    },
];

/// Unknown numbers and responses that nobody waits for are refused, and change nothing.
#[test]
fn hostile_network(rt: HostRuntime) -> Result<(), Fail> {
    assert_printed(&rt, "drive", &HOSTILE)
}
