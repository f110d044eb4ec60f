//! Cancellation tokens: whom a cancel ends, and what a cancelled token is good for.

use super::{Transcript, assert_printed};
use std::test::Fail;

static CANCELLED: [Transcript; 5] = [
    Transcript {
        name: "a cancel ends gets and liveliness gets, and a second one changes nothing",
        text: "\
ctoken
< 1 ok 0
get any a token=0
< 2 ok 0
< 2 send request 0 s0:a target=best cons=latest timeout=10000 G
lget a token=0
< 3 ok 2
< 3 send interest 2 current tokens s0:a
cancel 0
< 4 ok
< 4 end get 0
< 4 end lget 2
cancel 0
< 5 ok
lget a token=0
< 6 refused QueryCancelled
< 7 ok
< 7 send close",
    },
    Transcript {
        name: "a token that nobody made",
        text: "\
get any a token=0
< 1 refused NotFound
cancel 0
< 2 refused NotFound
ctoken
< 3 ok 0
cancel 1
< 4 refused NotFound
get any a// token=1
< 5 refused NotFound
get any a// token=0
< 6 refused BadKeyExpr
< 7 ok
< 7 send close",
    },
    Transcript {
        name: "a cancel drops what its gets keep, and leaves those of other tokens",
        text: "\
ctoken
< 1 ok 0
ctoken
< 2 ok 1
get any a/* cons=latest token=0
< 3 ok 0
< 3 send request 0 s0:a/* target=best cons=latest timeout=10000 G
get any a/* cons=latest token=1
< 4 ok 1
< 4 send request 1 s0:a/* target=best cons=latest timeout=10000 G
net response 0 s0:a/b put x01
< 5 ok
net response 1 s0:a/b put x02
< 6 ok
cancel 0
< 7 ok
< 7 end get 0
net response 0 s0:a/b put x03
< 8 refused Ignored
get any a/* token=0
< 9 refused QueryCancelled
net responsefinal 1
< 10 ok
< 10 reply get 1 put a/b x02 enc=zenoh/bytes G rel=1
< 10 end get 1
< 11 ok
< 11 send close",
    },
    Transcript {
        name: "a querier's get with a token",
        text: "\
querier remote a
< 1 ok 2
< 1 send interest 2 currentfuture queryables s0:a
ctoken
< 2 ok 0
qget 2 token=0
< 3 ok 0
< 3 send request 0 s0:a target=best cons=latest timeout=10000 G
qget 2
< 4 ok 1
< 4 send request 1 s0:a target=best cons=latest timeout=10000 G
cancel 0
< 5 ok
< 5 end get 0
qget 2 token=0
< 6 refused QueryCancelled
qget 2 token=1
< 7 refused NotFound
< 8 ok
< 8 send close
< 8 end get 1",
    },
    Transcript {
        name: "tokens behind the close",
        text: "\
ctoken
< 1 ok 0
close
< 2 ok
< 2 send close
ctoken
< 3 refused SessionClosedError
cancel 0
< 4 ok
cancel 7
< 5 ok
< 6 ok",
    },
];

/// A cancel ends the gets of its token alone, and no further get takes that token.
#[test]
fn tokens_cancel_gets(rt: HostRuntime) -> Result<(), Fail> {
    assert_printed(&rt, "drive", &CANCELLED)
}
