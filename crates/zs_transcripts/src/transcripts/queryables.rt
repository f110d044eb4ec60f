//! Queryables: how they are declared, and how they end.

use super::{Transcript, assert_printed};
use std::test::Fail;

static QUERYABLES: [Transcript; 2] = [
    Transcript {
        name: "queryables of each origin, by a text and by a declared number",
        text: "\
key a
< 1 ok 1
< 1 send keyexpr 1 s0:a
queryable any complete a/**
< 2 ok 2
< 2 send queryable 2 complete s0:a/**
queryable local partial a/b
< 3 ok 3
queryable remote partial #1:/c
< 4 ok 4
< 4 send queryable 4 partial s1:/c
queryable any complete a//b
< 5 refused BadKeyExpr
queryable any complete #2
< 6 refused NotFound
undeclare queryable 3
< 7 ok
< 7 end queryable 3
undeclare queryable 2
< 8 ok
< 8 send unqueryable 2
< 8 end queryable 2
undeclare queryable 2
< 9 refused NotFound
undeclare sub 4
< 10 refused NotFound
background queryable 4
< 11 ok
undeclare queryable 4
< 12 refused NotFound
< 13 ok
< 13 send close
< 13 end queryable 4",
    },
    Transcript {
        name: "a close ends queryables before subscribers, and tells no more of them",
        text: "\
sub any a
< 1 ok 2
< 1 send sub 2 s0:a
queryable any partial a
< 2 ok 3
< 2 send queryable 3 partial s0:a
queryable local complete b
< 3 ok 4
put any a x01
< 4 ok
< 4 send push s0:a put x01 %
< 4 hand sub 2 put a x01 %
close
< 5 ok
< 5 send close
< 5 end queryable 3
< 5 end queryable 4
< 5 end sub 2
queryable any partial a
< 6 refused SessionClosedError
undeclare queryable 3
< 7 ok
background queryable 4
< 8 ok
< 9 ok",
    },
];

/// Queryables are told to the network unless they are local, and end before subscribers at a close.
#[test]
fn queryables_are_declared_and_end(rt: HostRuntime) -> Result<(), Fail> {
    assert_printed(&rt, "drive", &QUERYABLES)
}
