//! Declared keys, and the numbers that stand for them.

use super::{Transcript, assert_printed};
use std::test::Fail;

static DECLARED_KEYS: [Transcript; 4] = [
    Transcript {
        name: "a declared key with and without a suffix",
        text: "\
key k
< 1 ok 1
< 1 send keyexpr 1 s0:k
sub any k
< 2 ok 2
< 2 send sub 2 s0:k
put any #1 x01
< 3 ok
< 3 send push s1: put x01 %
< 3 hand sub 2 put k x01 %
undeclare sub 2
< 4 ok
< 4 send unsub 2
< 4 end sub 2
put any #1 x01
< 5 ok
< 5 send push s1: put x01 %
sub any #1:/*
< 6 ok 3
< 6 send sub 3 s1:/*
put any #1:/b x
< 7 ok
< 7 send push s1:/b put x %
< 7 hand sub 3 put k/b x %
put any #1:// x
< 8 refused BadKeyExpr
sub any #1:
< 9 ok 4
< 9 send sub 4 s1:
put any #1 x
< 10 ok
< 10 send push s1: put x %
< 10 hand sub 4 put k x %
< 11 ok
< 11 send close
< 11 end sub 3
< 11 end sub 4",
    },
    Transcript {
        name: "a key that is declared twice ends where it was given back twice, and its number is not drawn again",
        text: "\
key k
< 1 ok 1
< 1 send keyexpr 1 s0:k
key k
< 2 ok 1
sub any k
< 3 ok 2
< 3 send sub 2 s0:k
undeclare key #1
< 4 ok
put any #1 x01
< 5 ok
< 5 send push s1: put x01 %
< 5 hand sub 2 put k x01 %
undeclare key #1
< 6 ok
< 6 send unkeyexpr 1
put any #1 x01
< 7 refused NotFound
undeclare key k
< 8 refused NotDeclared
key k
< 9 ok 2
< 9 send keyexpr 2 s0:k
< 10 ok
< 10 send close
< 10 end sub 2",
    },
    Transcript {
        name: "a text, a number with a suffix, one that is not held, and keys that are none can't be given back",
        text: "\
key a
< 1 ok 1
< 1 send keyexpr 1 s0:a
undeclare key #1:/b
< 2 refused NotDeclared
undeclare key #2:/b
< 3 refused NotFound
undeclare key #1://
< 4 refused BadKeyExpr
undeclare key a//b
< 5 refused BadKeyExpr
key #1:/b
< 6 ok 2
< 6 send keyexpr 2 s0:a/b
key #3
< 7 refused NotFound
key a//b
< 8 refused BadKeyExpr
undeclare key #2
< 9 ok
< 9 send unkeyexpr 2
key #2
< 10 refused NotFound
< 11 ok
< 11 send close",
    },
    Transcript {
        name: "a key as a text goes out as a text, and a number as the number, each as its line gave it",
        text: "\
key a/*
< 1 ok 1
< 1 send keyexpr 1 s0:a/*
sub any #1
< 2 ok 2
< 2 send sub 2 s1:
sub any a/*
< 3 ok 3
delete any a/*
< 4 ok
< 4 send push s0:a/* del prio=5 cc=drop express=0 rel=1
< 4 hand sub 2 del a/* x %
< 4 hand sub 3 del a/* x %
delete remote #1:/b
< 5 ok
< 5 send push s1:/b del prio=5 cc=drop express=0 rel=1
undeclare sub 2
< 6 ok
< 6 end sub 2
undeclare sub 3
< 7 ok
< 7 send unsub 2
< 7 end sub 3
< 8 ok
< 8 send close",
    },
];

static LAST_NUMBER: [Transcript; 1] = [Transcript {
    name: "the last number of a key is drawn once, and a held text keeps its number",
    text: "\
key a
< 1 ok 65534
< 1 send keyexpr 65534 s0:a
key b
< 2 refused IdsExhausted
key a
< 3 ok 65534
< 4 ok
< 4 send close",
}];

/// A declared number goes out as it was given, and stands here for its text until it is given back.
#[test]
fn declared_keys_stand_for_their_texts(rt: HostRuntime) -> Result<(), Fail> {
    assert_printed(&rt, "drive", &DECLARED_KEYS)
}

/// With keys numbered from 65534 on, one is declared, and no other.
#[test]
fn last_key_number_is_drawn_once(rt: HostRuntime) -> Result<(), Fail> {
    assert_printed(&rt, "drive key=65534", &LAST_NUMBER)
}
