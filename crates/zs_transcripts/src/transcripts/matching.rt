//! Matching: what listeners hear, and what the status of a publisher or querier is.

use super::{Transcript, assert_printed};
use std::test::Fail;

static LISTENERS: [Transcript; 3] = [
    Transcript {
        name: "a listener hears when the first comes, and when the last goes",
        text: "\
pub any k
< 1 ok 2
< 1 send interest 2 currentfuture subscribers s0:k
listen pub 2
< 2 ok 3
sub any k
< 3 ok 4
< 3 send sub 4 s0:k
< 3 match 3 true
sub any k
< 4 ok 5
status pub 2
< 5 ok 1
undeclare sub 4
< 6 ok
< 6 end sub 4
undeclare sub 5
< 7 ok
< 7 send unsub 4
< 7 end sub 5
< 7 match 3 false
sub any k
< 8 ok 6
< 8 send sub 6 s0:k
< 8 match 3 true
close
< 9 ok
< 9 send close
< 9 end sub 6
< 9 end listener 3
status pub 2
< 10 refused SessionClosedError
< 11 ok",
    },
    Transcript {
        name: "a true status is heard at once, by each listener, as long as it lives",
        text: "\
sub any k
< 1 ok 2
< 1 send sub 2 s0:k
pub any k
< 2 ok 3
< 2 send interest 3 currentfuture subscribers s0:k
listen pub 3
< 3 ok 4
< 3 match 4 true
listen pub 3
< 4 ok 5
< 4 match 5 true
background listener 5
< 5 ok
undeclare listener 5
< 6 refused NotFound
undeclare sub 2
< 7 ok
< 7 send unsub 2
< 7 end sub 2
< 7 match 4 false
< 7 match 5 false
undeclare listener 4
< 8 ok
< 8 end listener 4
sub any *
< 9 ok 6
< 9 send sub 6 s0:*
< 9 match 5 true
undeclare pub 3
< 10 ok
< 10 send interest 3 final subscribers
< 10 end listener 5
listen pub 3
< 11 refused NotFound
status pub 3
< 12 refused NotFound
listen querier 6
< 13 refused NotFound
< 14 ok
< 14 send close
< 14 end sub 6",
    },
    Transcript {
        name: "destinations count, and the origin that a subscriber wants does not",
        text: "\
pub local k
< 1 ok 2
listen pub 2
< 2 ok 3
pub remote k
< 3 ok 4
< 3 send interest 4 currentfuture subscribers s0:k
listen pub 4
< 4 ok 5
net sub 1 s0:**
< 5 ok
< 5 match 5 true
sub remote k
< 6 ok 6
< 6 send sub 6 s0:k
< 6 match 3 true
put any x x
< 7 ok
< 7 send push s0:x put x %
undeclare sub 6
< 8 ok
< 8 send unsub 6
< 8 end sub 6
< 8 match 3 false
net unsub 1
< 9 ok
< 9 match 5 false
< 10 ok
< 10 send close
< 10 end listener 3
< 10 end listener 5",
    },
];

static TOLD: [Transcript; 3] = [
    Transcript {
        name: "of a number that the network tells again the last key counts",
        text: "\
pub any k
< 1 ok 2
< 1 send interest 2 currentfuture subscribers s0:k
listen pub 2
< 2 ok 3
net sub 9 s0:k
< 3 ok
< 3 match 3 true
net sub 9 s0:z
< 4 ok
< 4 match 3 false
net unsub 8
< 5 refused Ignored
net sub 9 s0:*
< 6 ok
< 6 match 3 true
net sub 4 s0:k
< 7 ok
net unsub 9
< 8 ok
net sub 5 s8:
< 9 refused UnknownScope
net unsub 4
< 10 ok
< 10 match 3 false
status pub 2
< 11 ok 0
< 12 ok
< 12 send close
< 12 end listener 3",
    },
    Transcript {
        name: "a querier that wants all complete ones is met by those that are complete",
        text: "\
querier any a/b target=allcomplete
< 1 ok 2
< 1 send interest 2 currentfuture queryables s0:a/b
listen querier 2
< 2 ok 3
net queryable 4 partial s0:a/**
< 3 ok
net queryable 4 complete s0:a/**
< 4 ok
< 4 match 3 true
queryable any complete a/*
< 5 ok 4
< 5 send queryable 4 complete s0:a/*
net unqueryable 4
< 6 ok
undeclare queryable 4
< 7 ok
< 7 send unqueryable 4
< 7 end queryable 4
< 7 match 3 false
net unqueryable 4
< 8 refused Ignored
status querier 2
< 9 ok 0
undeclare querier 2
< 10 ok
< 10 send interest 2 final none
< 10 end listener 3
status querier 2
< 11 refused NotFound
< 12 ok
< 12 send close",
    },
    Transcript {
        name: "a complete queryable that does not include the key",
        text: "\
querier any a/* target=allcomplete
< 1 ok 2
< 1 send interest 2 currentfuture queryables s0:a/*
querier any a/*
< 2 ok 3
listen querier 2
< 3 ok 4
listen querier 3
< 4 ok 5
queryable local complete a/b
< 5 ok 6
< 5 match 5 true
status querier 2
< 6 ok 0
status querier 3
< 7 ok 1
queryable local complete a/*
< 8 ok 7
< 8 match 4 true
undeclare queryable 6
< 9 ok
< 9 end queryable 6
< 10 ok
< 10 send close
< 10 end queryable 7
< 10 end listener 4
< 10 end listener 5",
    },
];

/// Listeners of publishers hear a true status at once, and then each change of it alone.
#[test]
fn listeners_hear_changes(rt: HostRuntime) -> Result<(), Fail> {
    assert_printed(&rt, "drive", &LISTENERS)
}

/// What the network declares counts for matching, and so does whether a queryable is complete.
#[test]
fn told_ones_count(rt: HostRuntime) -> Result<(), Fail> {
    assert_printed(&rt, "drive", &TOLD)
}
