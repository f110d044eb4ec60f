//! Publishers, and what they put and delete.

use super::{Transcript, assert_printed};
use std::test::Fail;

static PUBLISHERS: [Transcript; 4] = [
    Transcript {
        name: "a publisher on a number that is given back goes on by the text",
        text: "\
key k
< 1 ok 1
< 1 send keyexpr 1 s0:k
pub any #1
< 2 ok 2
< 2 send interest 2 currentfuture subscribers s1:
undeclare key #1
< 3 ok
< 3 send unkeyexpr 1
pput 2 x01
< 4 ok
< 4 send push s0:k put x01 %
< 5 ok
< 5 send close",
    },
    Transcript {
        name: "a publisher on a number with a suffix",
        text: "\
key k
< 1 ok 1
< 1 send keyexpr 1 s0:k
pub any #1:/a
< 2 ok 2
< 2 send interest 2 currentfuture subscribers s1:/a
sub local k/*
< 3 ok 3
pput 2 x01
< 4 ok
< 4 send push s1:/a put x01 %
< 4 hand sub 3 put k/a x01 %
undeclare pub 2
< 5 ok
< 5 send interest 2 final subscribers
pub any #2
< 6 refused NotFound
pub any #1://
< 7 refused BadKeyExpr
< 8 ok
< 8 send close
< 8 end sub 3",
    },
    Transcript {
        name: "qualities of a publisher, and those that its puts can't change",
        text: "\
pub any k enc=application/json prio=2 cc=block express=1 rel=0
< 1 ok 2
< 1 send interest 2 currentfuture subscribers s0:k
sub any k
< 2 ok 3
< 2 send sub 3 s0:k
pput 2 x7b7d
< 3 ok
< 3 send push s0:k put x7b7d enc=application/json prio=2 cc=block express=1 rel=0
< 3 hand sub 3 put k x7b7d enc=application/json prio=2 cc=block express=1 rel=0
pput 2 x01 enc= ts=1:b src=1:2:3 att=x02
< 4 ok
< 4 send push s0:k put x01 enc=zenoh/bytes ts=1:b prio=2 cc=block express=1 rel=0 src=1:2:3 att=x02
< 4 hand sub 3 put k x01 enc=zenoh/bytes ts=1:b prio=2 cc=block express=1 rel=0 src=1:2:3 att=x02
pdel 2 ts=2:b
< 5 ok
< 5 send push s0:k del ts=2:b prio=2 cc=block express=1 rel=0
< 5 hand sub 3 del k x enc=zenoh/bytes ts=2:b prio=2 cc=block express=1 rel=0
< 6 ok
< 6 send close
< 6 end sub 3",
    },
    Transcript {
        name: "destinations of publishers that share a key",
        text: "\
pub local k
< 1 ok 2
pub remote k
< 2 ok 3
< 2 send interest 3 currentfuture subscribers s0:k
pub any k enc=
< 3 ok 4
sub any k
< 4 ok 5
< 4 send sub 5 s0:k
pput 2 x01
< 5 ok
< 5 hand sub 5 put k x01 %
pput 3 x01
< 6 ok
< 6 send push s0:k put x01 %
pput 4 x01
< 7 ok
< 7 send push s0:k put x01 %
< 7 hand sub 5 put k x01 %
pput 5 x01
< 8 refused NotFound
undeclare pub 5
< 9 refused NotFound
undeclare sub 4
< 10 refused NotFound
undeclare pub 3
< 11 ok
pdel 3
< 12 refused NotFound
undeclare pub 2
< 13 ok
undeclare pub 4
< 14 ok
< 14 send interest 3 final subscribers
pub any k
< 15 ok 6
< 15 send interest 6 currentfuture subscribers s0:k
< 16 ok
< 16 send close
< 16 end sub 5",
    },
];

/// Publishers put and delete with their own qualities, each to its own destination.
#[test]
fn publishers_put_and_delete(rt: HostRuntime) -> Result<(), Fail> {
    assert_printed(&rt, "drive", &PUBLISHERS)
}
