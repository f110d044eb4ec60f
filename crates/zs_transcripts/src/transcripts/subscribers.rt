//! Subscribers, and the puts that reach them.

use super::{Transcript, assert_printed};
use std::test::Fail;

static SUBSCRIBERS: [Transcript; 11] = [
    Transcript {
        name: "an empty script",
        text: "\
< 1 ok
< 1 send close",
    },
    Transcript {
        name: "a subscriber hears a put and a delete",
        text: "\
sub any test/k
< 1 ok 2
< 1 send sub 2 s0:test/k
put any test/k x7a656e6f68
< 2 ok
< 2 send push s0:test/k put x7a656e6f68 %
< 2 hand sub 2 put test/k x7a656e6f68 %
delete any test/k
< 3 ok
< 3 send push s0:test/k del prio=5 cc=drop express=0 rel=1
< 3 hand sub 2 del test/k x %
< 4 ok
< 4 send close
< 4 end sub 2",
    },
    Transcript {
        name: "localities of puts and of subscribers",
        text: "\
sub local k
< 1 ok 2
sub remote k
< 2 ok 3
< 2 send sub 3 s0:k
sub any k
< 3 ok 4
put local k x01
< 4 ok
< 4 hand sub 2 put k x01 %
< 4 hand sub 4 put k x01 %
put remote k x01
< 5 ok
< 5 send push s0:k put x01 %
net push s0:k put x01
< 6 ok
< 6 hand sub 3 put k x01 %
< 6 hand sub 4 put k x01 %
< 7 ok
< 7 send close
< 7 end sub 2
< 7 end sub 3
< 7 end sub 4",
    },
    Transcript {
        name: "an undeclared subscriber hears nothing, and can't be undeclared again",
        text: "\
sub any k
< 1 ok 2
< 1 send sub 2 s0:k
undeclare sub 2
< 2 ok
< 2 send unsub 2
< 2 end sub 2
undeclare sub 2
< 3 refused NotFound
put any k x01
< 4 ok
< 4 send push s0:k put x01 %
< 5 ok
< 5 send close",
    },
    Transcript {
        name: "a subscriber that is left to itself hears on, and can't be named",
        text: "\
sub any k
< 1 ok 2
< 1 send sub 2 s0:k
background sub 2
< 2 ok
undeclare sub 2
< 3 refused NotFound
background sub 2
< 4 refused NotFound
put any k x01
< 5 ok
< 5 send push s0:k put x01 %
< 5 hand sub 2 put k x01 %
sub any k
< 6 ok 3
undeclare sub 3
< 7 ok
< 7 end sub 3
< 8 ok
< 8 send close
< 8 end sub 2",
    },
    Transcript {
        name: "texts that are no key expressions",
        text: "\
sub any a//b
< 1 refused BadKeyExpr
sub any **/**
< 2 refused BadKeyExpr
sub any a/$*
< 3 refused BadKeyExpr
sub any #x
< 4 refused BadKeyExpr
sub any 
< 5 refused BadKeyExpr
sub any a
< 6 ok 2
< 6 send sub 2 s0:a
< 7 ok
< 7 send close
< 7 end sub 2",
    },
    Transcript {
        name: "wildcards, and verbatim chunks that they don't stand for",
        text: "\
sub any a/**
< 1 ok 2
< 1 send sub 2 s0:a/**
sub any a/*
< 2 ok 3
< 2 send sub 3 s0:a/*
sub any a/x$*
< 3 ok 4
< 3 send sub 4 s0:a/x$*
sub any **
< 4 ok 5
< 4 send sub 5 s0:**
put any a x
< 5 ok
< 5 send push s0:a put x %
< 5 hand sub 2 put a x %
< 5 hand sub 5 put a x %
put any a/@b x
< 6 ok
< 6 send push s0:a/@b put x %
put any a/x x
< 7 ok
< 7 send push s0:a/x put x %
< 7 hand sub 2 put a/x x %
< 7 hand sub 3 put a/x x %
< 7 hand sub 4 put a/x x %
< 7 hand sub 5 put a/x x %
put any @v/a x
< 8 ok
< 8 send push s0:@v/a put x %
< 9 ok
< 9 send close
< 9 end sub 2
< 9 end sub 3
< 9 end sub 4
< 9 end sub 5",
    },
    Transcript {
        name: "twins on one key each get the sample, with its bytes in lower case",
        text: "\
sub any k
< 1 ok 2
< 1 send sub 2 s0:k
sub any k
< 2 ok 3
put any k xAb
< 3 ok
< 3 send push s0:k put xab %
< 3 hand sub 2 put k xab %
< 3 hand sub 3 put k xab %
< 4 ok
< 4 send close
< 4 end sub 2
< 4 end sub 3",
    },
    Transcript {
        name: "a local subscriber, and a number that is no number",
        text: "\
sub local a/*
< 1 ok 2
net push s0:a/b put x
< 2 ok
net push s0:a//b put x
< 3 refused BadKeyExpr
put any #65536 x
< 4 refused BadKeyExpr
< 5 ok
< 5 send close
< 5 end sub 2",
    },
    Transcript {
        name: "a put for the network alone",
        text: "\
sub any **
< 1 ok 2
< 1 send sub 2 s0:**
put remote k x01
< 2 ok
< 2 send push s0:k put x01 %
undeclare sub 3
< 3 refused NotFound
< 4 ok
< 4 send close
< 4 end sub 2",
    },
    Transcript {
        name: "a put with wildcards reaches each subscriber that it meets",
        text: "\
sub any a/b
< 1 ok 2
< 1 send sub 2 s0:a/b
sub any c
< 2 ok 3
< 2 send sub 3 s0:c
put any a/* x
< 3 ok
< 3 send push s0:a/* put x %
< 3 hand sub 2 put a/* x %
put any ** x
< 4 ok
< 4 send push s0:** put x %
< 4 hand sub 2 put ** x %
< 4 hand sub 3 put ** x %
< 5 ok
< 5 send close
< 5 end sub 2
< 5 end sub 3",
    },
];

static LAST_NUMBER: [Transcript; 1] = [Transcript {
    name: "the last number of an entity is drawn once",
    text: "\
sub any a
< 1 ok 4294967294
< 1 send sub 4294967294 s0:a
sub any a
< 2 refused IdsExhausted
pub any a
< 3 refused IdsExhausted
< 4 ok
< 4 send close
< 4 end sub 4294967294",
}];

/// Subscribers hear the puts that meet their keys and origins, until they are undeclared.
#[test]
fn subscribers_hear_puts(rt: HostRuntime) -> Result<(), Fail> {
    assert_printed(&rt, "drive", &SUBSCRIBERS)
}

/// With entities numbered behind 4294967293, one is declared, and no other.
#[test]
fn last_number_is_drawn_once(rt: HostRuntime) -> Result<(), Fail> {
    assert_printed(&rt, "drive entity=4294967293", &LAST_NUMBER)
}
