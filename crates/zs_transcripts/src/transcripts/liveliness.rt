//! Liveliness: tokens of this session and of the network, their subscribers, and gets of tokens.

use super::{Transcript, assert_printed};
use std::test::Fail;

static TOKENS: [Transcript; 5] = [
    Transcript {
        name: "tokens that the network tells",
        text: "\
net token 5 s0:k
< 1 ok
lsub history k
< 2 ok 2
< 2 send interest 2 currentfuture tokens s0:k
< 2 hand lsub 2 put k x %
net untoken 9 s0:k
< 3 ok
< 3 hand lsub 2 del k x %
net untoken 9
< 4 ok
lget k
< 5 ok 3
< 5 send interest 3 current tokens s0:k
net token 6 s0:k interest=3
< 6 ok
< 6 reply lget 3 put k x %
net untoken 6
< 7 ok
net declarefinal interest=3
< 8 ok
< 8 end lget 3
net declarefinal
< 9 refused Ignored
< 10 ok
< 10 send close
< 10 end lsub 2",
    },
    Transcript {
        name: "who hears of a token that was there before",
        text: "\
lsub live a/*
< 1 ok 2
< 1 send interest 2 future tokens s0:a/*
lsub history a/*
< 2 ok 3
< 2 send interest 3 currentfuture tokens s0:a/*
net token 9 s0:a/b interest=3
< 3 ok
< 3 hand lsub 3 put a/b x %
net token 4 s0:a/c
< 4 ok
< 4 hand lsub 2 put a/c x %
< 4 hand lsub 3 put a/c x %
net token 4 s0:a/d
< 5 ok
net token 4 s0:a//d
< 6 refused BadKeyExpr
lsub history **
< 7 ok 4
< 7 send interest 4 currentfuture tokens s0:**
< 7 hand lsub 4 put a/c x %
< 7 hand lsub 4 put a/b x %
undeclare lsub 3
< 8 ok
< 8 send interest 3 final tokens
< 8 end lsub 3
net untoken 4 s0:x//y
< 9 ok
< 9 hand lsub 2 del a/c x %
< 9 hand lsub 4 del a/c x %
net untoken 4 s0:x//y
< 10 refused BadKeyExpr
net untoken 9 s8: interest=2
< 11 ok
< 11 hand lsub 4 del a/b x %
net untoken 9 s8:
< 12 refused UnknownScope
background lsub 2
< 13 ok
undeclare lsub 2
< 14 refused NotFound
< 15 ok
< 15 send close
< 15 end lsub 2
< 15 end lsub 4",
    },
    Transcript {
        name: "a token of this session is heard by nobody here",
        text: "\
key k
< 1 ok 1
< 1 send keyexpr 1 s0:k
lsub history **
< 2 ok 2
< 2 send interest 2 currentfuture tokens s0:**
token #1
< 3 ok 3
< 3 send token 3 s1:
undeclare token 3
< 4 ok
< 4 send untoken 3
undeclare token 3
< 5 refused NotFound
token k//
< 6 refused BadKeyExpr
< 7 ok
< 7 send close
< 7 end lsub 2",
    },
    Transcript {
        name: "a get of tokens ends by time",
        text: "\
lget k timeout=5
< 1 ok 2
< 1 send interest 2 current tokens s0:k
lget k
< 2 ok 3
< 2 send interest 3 current tokens s0:k
get any k timeout=5
< 3 ok 0
< 3 send request 0 s0:k target=best cons=latest timeout=5 G
tick 4
< 4 ok
tick 5
< 5 ok
< 5 reply get 0 err x54696d656f7574 enc=zenoh/string
< 5 reply lget 2 err x54696d656f7574 enc=zenoh/string
< 5 end get 0
< 5 end lget 2
net token 6 s0:z interest=2
< 6 ok
net token 7 s0:z interest=3
< 7 ok
< 7 reply lget 3 put z x %
net declarefinal interest=2
< 8 ok
lsub history z
< 9 ok 4
< 9 send interest 4 currentfuture tokens s0:z
< 9 hand lsub 4 put z x %
< 10 ok
< 10 send close
< 10 end lsub 4
< 10 end lget 3",
    },
    Transcript {
        name: "liveliness behind the close",
        text: "\
token k
< 1 ok 2
< 1 send token 2 s0:k
close
< 2 ok
< 2 send close
token k
< 3 refused SessionClosedError
lsub live k
< 4 refused SessionClosedError
lget k
< 5 refused SessionClosedError
undeclare token 2
< 6 ok
net token 1 s0:k
< 7 refused Ignored
net untoken 1
< 8 refused Ignored
net declarefinal interest=2
< 9 refused Ignored
< 10 ok",
    },
];

/// Subscribers and gets of liveliness hear of the network's tokens, and not of this session's own.
#[test]
fn tokens_come_and_go(rt: HostRuntime) -> Result<(), Fail> {
    assert_printed(&rt, "drive", &TOKENS)
}
