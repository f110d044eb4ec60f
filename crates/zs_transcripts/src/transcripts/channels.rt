//! Channels: what is handed over waits in them, until a line reads it.

use super::{Transcript, assert_printed};
use std::test::Fail;

static OF_SUBSCRIBERS: [Transcript; 3] = [
    Transcript {
        name: "a full fifo loses nothing, and ends behind its last item",
        text: "\
sub any k fifo:1
< 1 ok 2
< 1 send sub 2 s0:k
put any k x01
< 2 ok
< 2 send push s0:k put x01 %
< 2 hand sub 2 put k x01 %
put any k x02
< 3 ok
< 3 send push s0:k put x02 %
< 3 hand sub 2 put k x02 %
recv sub 2
< 4 item put k x01 %
recv sub 2
< 5 item put k x02 %
recv sub 2
< 6 empty
put local k x03
< 7 ok
< 7 hand sub 2 put k x03 %
undeclare sub 2
< 8 ok
< 8 send unsub 2
< 8 end sub 2
recv sub 2
< 9 item put k x03 %
recv sub 2
< 10 disconnected
recv sub 2
< 11 disconnected
< 12 ok
< 12 send close",
    },
    Transcript {
        name: "of a ring the last stay, until it ends",
        text: "\
sub local k ring:2
< 1 ok 2
put local k x03
< 2 ok
< 2 hand sub 2 put k x03 %
put local k x04
< 3 ok
< 3 hand sub 2 put k x04 %
put local k x05 enc=text/plain src=b:2:1
< 4 ok
< 4 hand sub 2 put k x05 enc=text/plain prio=5 cc=drop express=0 rel=1 src=b:2:1
recv sub 2
< 5 item put k x04 %
recv sub 2
< 6 item put k x05 enc=text/plain prio=5 cc=drop express=0 rel=1 src=b:2:1
recv sub 2
< 7 empty
put local k x06
< 8 ok
< 8 hand sub 2 put k x06 %
undeclare sub 2
< 9 ok
< 9 end sub 2
recv sub 2
< 10 deleted
< 11 ok
< 11 send close",
    },
    Transcript {
        name: "a channel in the background, behind the close, and where there is none",
        text: "\
sub local k fifo:3
< 1 ok 2
sub local k
< 2 ok 3
background sub 2
< 3 ok
delete local k
< 4 ok
< 4 hand sub 2 del k x %
< 4 hand sub 3 del k x %
recv sub 2
< 5 item del k x %
recv sub 2
< 6 empty
recv sub 3
< 7 refused NotFound
recv get 2
< 8 refused NotFound
recv lget 2
< 9 refused NotFound
put local k x07
< 10 ok
< 10 hand sub 2 put k x07 %
< 10 hand sub 3 put k x07 %
close
< 11 ok
< 11 send close
< 11 end sub 2
< 11 end sub 3
recv sub 2
< 12 item put k x07 %
recv sub 2
< 13 disconnected
recv sub 3
< 14 ok
recv get 0
< 15 ok
< 16 ok",
    },
];

static OF_GETS: [Transcript; 3] = [
    Transcript {
        name: "replies of a get, and its end",
        text: "\
get remote a cons=none to=fifo:1
< 1 ok 0
< 1 send request 0 s0:a target=best cons=none timeout=10000 G
net response 0 s0:a put x01
< 2 ok
< 2 reply get 0 put a x01 enc=zenoh/bytes G rel=1
net response 0 s0:a put x02 by=b:3
< 3 ok
< 3 reply get 0 put a x02 enc=zenoh/bytes G rel=1 by=b:3
net response 0 s0:a err x45
< 4 ok
< 4 reply get 0 err x45 enc=zenoh/bytes
recv get 0
< 5 item put a x01 enc=zenoh/bytes G rel=1
recv get 0
< 6 item put a x02 enc=zenoh/bytes G rel=1 by=b:3
recv get 0
< 7 item err x45 enc=zenoh/bytes
recv get 0
< 8 empty
net responsefinal 0
< 9 ok
< 9 end get 0
recv get 0
< 10 disconnected
get local a to=fifo:2
< 11 ok 1
< 11 end get 1
recv get 1
< 12 disconnected
< 13 ok
< 13 send close",
    },
    Transcript {
        name: "a ring of a querier's get, and what comes before its end",
        text: "\
querier any k cons=none
< 1 ok 2
< 1 send interest 2 currentfuture queryables s0:k
qget 2 to=ring:1
< 2 ok 0
< 2 send request 0 s0:k target=best cons=none timeout=10000 G
net response 0 s0:k put x01
< 3 ok
< 3 reply get 0 put k x01 enc=zenoh/bytes G rel=1
net response 0 s0:k put x02
< 4 ok
< 4 reply get 0 put k x02 enc=zenoh/bytes G rel=1
recv get 0
< 5 item put k x02 enc=zenoh/bytes G rel=1
net response 0 s0:k put x03
< 6 ok
< 6 reply get 0 put k x03 enc=zenoh/bytes G rel=1
tick 10000
< 7 ok
< 7 reply get 0 err x54696d656f7574 enc=zenoh/string
< 7 end get 0
recv get 0
< 8 deleted
< 9 ok
< 9 send close",
    },
    Transcript {
        name: "tokens that a get of tokens is told",
        text: "\
lget k to=ring:1
< 1 ok 2
< 1 send interest 2 current tokens s0:k
net token 6 s0:k interest=2
< 2 ok
< 2 reply lget 2 put k x %
recv sub 2
< 3 refused NotFound
recv lget 2
< 4 item put k x %
net token 7 s0:k/a interest=2
< 5 ok
< 5 reply lget 2 put k/a x %
net declarefinal interest=2
< 6 ok
< 6 end lget 2
recv lget 2
< 7 deleted
< 8 ok
< 8 send close",
    },
];

/// A subscriber's channel outlives it as a fifo, and ends with it as a ring.
#[test]
fn channels_of_subscribers(rt: HostRuntime) -> Result<(), Fail> {
    assert_printed(&rt, "drive", &OF_SUBSCRIBERS)
}

/// The replies of gets, queriers' gets and gets of tokens wait in channels as samples do.
#[test]
fn channels_of_gets(rt: HostRuntime) -> Result<(), Fail> {
    assert_printed(&rt, "drive", &OF_GETS)
}
