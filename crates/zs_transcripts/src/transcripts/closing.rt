//! What comes behind a close.

use super::{Transcript, assert_printed};
use std::test::Fail;

static CLOSING: [Transcript; 2] = [
    Transcript {
        name: "each line behind a close",
        text: "\
sub any k
< 1 ok 2
< 1 send sub 2 s0:k
close
< 2 ok
< 2 send close
< 2 end sub 2
put any k x01
< 3 refused SessionClosedError
undeclare sub 2
< 4 ok
net push s0:k put x01
< 5 refused Ignored
put any a//b x01
< 6 refused SessionClosedError
< 7 ok",
    },
    Transcript {
        name: "declared keys, publishers and deletions behind a close",
        text: "\
key k
< 1 ok 1
< 1 send keyexpr 1 s0:k
pub any k
< 2 ok 2
< 2 send interest 2 currentfuture subscribers s0:k
close
< 3 ok
< 3 send close
undeclare key #1
< 4 refused SessionClosedError
key k
< 5 refused SessionClosedError
put any #1 x
< 6 refused SessionClosedError
delete any k
< 7 refused SessionClosedError
pub any k
< 8 refused SessionClosedError
pput 2 x
< 9 refused SessionClosedError
pdel 2
< 10 refused SessionClosedError
undeclare pub 2
< 11 ok
background sub 2
< 12 ok
close
< 13 ok
net push s0:k del
< 14 refused Ignored
< 15 ok",
    },
];

/// Behind a close nothing is published or declared, and messages of the network are ignored.
#[test]
fn closed_session_refuses(rt: HostRuntime) -> Result<(), Fail> {
    assert_printed(&rt, "drive", &CLOSING)
}
