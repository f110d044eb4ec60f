//! Declarations that share one text by the aggregates of the settings.

use super::{Transcript, assert_printed};
use std::test::Fail;

static ONE_AGGREGATE: [Transcript; 2] = [
    Transcript {
        name: "subscribers under one aggregate share a declaration with the number of the first",
        text: "\
sub any a/b
< 1 ok 2
< 1 send sub 2 s0:a/**
sub any a/c
< 2 ok 3
undeclare sub 2
< 3 ok
< 3 end sub 2
undeclare sub 3
< 4 ok
< 4 send unsub 2
< 4 end sub 3
< 5 ok
< 5 send close",
    },
    Transcript {
        name: "no aggregate holds for a local subscriber, for a key that it doesn't include, or for a publisher",
        text: "\
key a/b
< 1 ok 1
< 1 send keyexpr 1 s0:a/b
sub local a/b
< 2 ok 2
sub any #1
< 3 ok 3
< 3 send sub 3 s0:a/**
sub any b
< 4 ok 4
< 4 send sub 4 s0:b
sub any **
< 5 ok 5
< 5 send sub 5 s0:**
sub any a
< 6 ok 6
pub any a/b
< 7 ok 7
< 7 send interest 7 currentfuture subscribers s0:a/b
undeclare sub 2
< 8 ok
< 8 end sub 2
undeclare sub 3
< 9 ok
< 9 end sub 3
background sub 6
< 10 ok
sub remote a/@x
< 11 ok 8
< 11 send sub 8 s0:a/@x
< 12 ok
< 12 send close
< 12 end sub 4
< 12 end sub 5
< 12 end sub 6
< 12 end sub 8",
    },
];

static FIRST_IN_ORDER: [Transcript; 1] = [Transcript {
    name: "of several aggregates the first that includes the key holds",
    text: "\
sub any a/b/c
< 1 ok 2
< 1 send sub 2 s0:a/b/**
sub any a/d
< 2 ok 3
< 2 send sub 3 s0:a/**
undeclare sub 2
< 3 ok
< 3 send unsub 2
< 3 end sub 2
sub any a/b
< 4 ok 4
< 4 send sub 4 s0:a/b/**
< 5 ok
< 5 send close
< 5 end sub 3
< 5 end sub 4",
}];

static OF_PUBLISHERS: [Transcript; 1] = [Transcript {
    name: "publishers under an aggregate of their own, which their puts don't show",
    text: "\
pub any a/b
< 1 ok 2
< 1 send interest 2 currentfuture subscribers s0:a/**
pub local a/c
< 2 ok 3
pub any a/c
< 3 ok 4
sub any a/b
< 4 ok 5
< 4 send sub 5 s0:a/b
pput 4 x01
< 5 ok
< 5 send push s0:a/c put x01 %
undeclare pub 2
< 6 ok
undeclare pub 4
< 7 ok
< 7 send interest 2 final subscribers
< 8 ok
< 8 send close
< 8 end sub 5",
}];

/// Subscribers that an aggregate includes are told as one, until the last of them ends.
#[test]
fn declarations_share_an_aggregate(rt: HostRuntime) -> Result<(), Fail> {
    assert_printed(&rt, "drive aggsub=a/**", &ONE_AGGREGATE)
}

/// The first aggregate of the words that includes a key is the one that is declared for it.
#[test]
fn first_aggregate_holds(rt: HostRuntime) -> Result<(), Fail> {
    assert_printed(&rt, "drive aggsub=a/b/** aggsub=a/**", &FIRST_IN_ORDER)
}

/// Publishers share the interest of their aggregate, and puts keep their own key.
#[test]
fn publishers_have_aggregates_of_their_own(rt: HostRuntime) -> Result<(), Fail> {
    assert_printed(
        &rt,
        "drive aggpub=a/** tag=2 aggsub=b aggpub=a/**",
        &OF_PUBLISHERS,
    )
}
