//! Gets: what they ask, the replies that they hand out, and how they end.

use super::{Transcript, assert_printed};
use std::test::Fail;

static GETS: [Transcript; 10] = [
    Transcript {
        name: "a reply on another key, an error on any, and the final",
        text: "\
get remote a cons=none
< 1 ok 0
< 1 send request 0 s0:a target=best cons=none timeout=10000 G
net response 0 s0:b put x01
< 2 refused Ignored
net response 0 s0:b err x45
< 3 ok
< 3 reply get 0 err x45 enc=zenoh/bytes
net responsefinal 0
< 4 ok
< 4 end get 0
< 5 ok
< 5 send close",
    },
    Transcript {
        name: "a range of time, where the mode is left open",
        text: "\
get any a?_time cons=auto
< 1 ok 0
< 1 send request 0 s0:a params=_time target=best cons=none timeout=10000 G
< 2 ok
< 2 send close
< 2 end get 0",
    },
    Transcript {
        name: "the last reply of greatest timestamp for each key",
        text: "\
get any a/* cons=latest
< 1 ok 0
< 1 send request 0 s0:a/* target=best cons=latest timeout=10000 G
net response 0 s0:a/b put x78 ts=2:1
< 2 ok
net response 0 s0:a/b put x79 ts=2:1
< 3 ok
net response 0 s0:a/b put x7a ts=1:1
< 4 ok
net response 0 s0:a/c put x77
< 5 ok
net responsefinal 0
< 6 ok
< 6 reply get 0 put a/b x79 enc=zenoh/bytes ts=2:1 G rel=1
< 6 reply get 0 put a/c x77 enc=zenoh/bytes G rel=1
< 6 end get 0
net responsefinal 0
< 7 refused Ignored
< 8 ok
< 8 send close",
    },
    Transcript {
        name: "replies that none of greater timestamp came before",
        text: "\
get any a/* cons=monotonic
< 1 ok 0
< 1 send request 0 s0:a/* target=best cons=monotonic timeout=10000 G
net response 0 s0:a/b put x78 ts=2:1
< 2 ok
< 2 reply get 0 put a/b x78 enc=zenoh/bytes ts=2:1 G rel=1
net response 0 s0:a/b put x79 ts=2:1
< 3 ok
< 3 reply get 0 put a/b x79 enc=zenoh/bytes ts=2:1 G rel=1
net response 0 s0:a/b put x7a ts=1:1
< 4 ok
net response 0 s0:a/c put x77
< 5 ok
< 5 reply get 0 put a/c x77 enc=zenoh/bytes G rel=1
net responsefinal 0
< 6 ok
< 6 end get 0
net responsefinal 0
< 7 refused Ignored
< 8 ok
< 8 send close",
    },
    Transcript {
        name: "a deadline, and moments before it and behind it",
        text: "\
tick 5
< 1 ok
get any a cons=latest timeout=10
< 2 ok 0
< 2 send request 0 s0:a target=best cons=latest timeout=10 G
net response 0 s0:a put x01
< 3 ok
tick 14
< 4 ok
tick 3
< 5 ok
tick 15
< 6 ok
< 6 reply get 0 put a x01 enc=zenoh/bytes G rel=1
< 6 reply get 0 err x54696d656f7574 enc=zenoh/string
< 6 end get 0
tick 20
< 7 ok
< 8 ok
< 8 send close",
    },
    Transcript {
        name: "a get that asks this session alone, where nobody answers",
        text: "\
get local a
< 1 ok 0
< 1 end get 0
net response 0 s0:a put x01
< 2 refused Ignored
< 3 ok
< 3 send close",
    },
    Transcript {
        name: "two deadlines at one moment: all replies come before the ends",
        text: "\
get any a timeout=5
< 1 ok 0
< 1 send request 0 s0:a target=best cons=latest timeout=5 G
get any b timeout=5
< 2 ok 1
< 2 send request 1 s0:b target=best cons=latest timeout=5 G
net response 1 s0:b put x01
< 3 ok
tick 5
< 4 ok
< 4 reply get 0 err x54696d656f7574 enc=zenoh/string
< 4 reply get 1 put b x01 enc=zenoh/bytes G rel=1
< 4 reply get 1 err x54696d656f7574 enc=zenoh/string
< 4 end get 0
< 4 end get 1
< 5 ok
< 5 send close",
    },
    Transcript {
        name: "a declared number, parameters with signs at their end, and replies on any key",
        text: "\
key a
< 1 ok 1
< 1 send keyexpr 1 s0:a
get any #1:/b?x=1;y;=| cons=none prio=2 cc=drop express=1 accept=any
< 2 ok 0
< 2 send request 0 s1:/b params=x=1;y;_anyke target=best cons=none timeout=10000 prio=2 cc=drop express=1
net response 0 s0:z put x01
< 3 ok
< 3 reply get 0 put z x01 enc=zenoh/bytes G rel=1
net response 0 r1:/c del prio=0 by=b:3
< 4 ok
< 4 reply get 0 del a/c x enc=zenoh/bytes prio=5 cc=block express=0 rel=1 by=b:3
net response 0 s4:z put x01
< 5 refused UnknownScope
net response 0 s0:a//b put x01
< 6 refused BadKeyExpr
net response 0 s4:a//b err x01 enc=a by=b:3
< 7 ok
< 7 reply get 0 err x01 enc=a by=b:3
get any #2
< 8 refused NotFound
get any a//b
< 9 refused BadKeyExpr
< 10 ok
< 10 send close
< 10 end get 0",
    },
    Transcript {
        name: "replies are no publications",
        text: "\
sub any a
< 1 ok 2
< 1 send sub 2 s0:a
get any a cons=none payload=x01
< 2 ok 0
< 2 send request 0 s0:a target=best cons=none timeout=10000 payload=x01 enc=zenoh/bytes G
net response 0 s0:a put x02
< 3 ok
< 3 reply get 0 put a x02 enc=zenoh/bytes G rel=1
net push s0:a put x03
< 4 ok
< 4 hand sub 2 put a x03 %
< 5 ok
< 5 send close
< 5 end sub 2
< 5 end get 0",
    },
    Transcript {
        name: "a close hands out nothing that was kept",
        text: "\
sub any a
< 1 ok 2
< 1 send sub 2 s0:a
get any a
< 2 ok 0
< 2 send request 0 s0:a target=best cons=latest timeout=10000 G
get remote b
< 3 ok 1
< 3 send request 1 s0:b target=best cons=latest timeout=10000 G
net response 0 s0:a put x01
< 4 ok
close
< 5 ok
< 5 send close
< 5 end sub 2
< 5 end get 0
< 5 end get 1
get any a
< 6 refused SessionClosedError
tick 10000
< 7 ok
net response 0 s0:a put x01
< 8 refused Ignored
net responsefinal 0
< 9 refused Ignored
< 10 ok",
    },
];

/// Gets consolidate their replies by their modes, and end by finals, deadlines and a close.
#[test]
fn gets_hand_out_their_replies(rt: HostRuntime) -> Result<(), Fail> {
    assert_printed(&rt, "drive", &GETS)
}
