//! The options of publications, in messages and in samples.

use super::{Transcript, assert_printed};
use std::test::Fail;

static SAMPLES: [Transcript; 3] = [
    Transcript {
        name: "all options of a put, and a priority that no sample has",
        text: "\
sub any k
< 1 ok 2
< 1 send sub 2 s0:k
put any k x01 enc=text/plain ts=5:a prio=1 cc=block express=1 rel=0 src=7:3:9 att=xff
< 2 ok
< 2 send push s0:k put x01 enc=text/plain ts=5:a prio=1 cc=block express=1 rel=0 src=7:3:9 att=xff
< 2 hand sub 2 put k x01 enc=text/plain ts=5:a prio=1 cc=block express=1 rel=0 src=7:3:9 att=xff
net push s0:k put x01 prio=0
< 3 ok
< 3 hand sub 2 put k x01 %
< 4 ok
< 4 send close
< 4 end sub 2",
    },
    Transcript {
        name: "all options of a deletion, and some of them, with digits in lower case",
        text: "\
sub any k
< 1 ok 2
< 1 send sub 2 s0:k
delete any k ts=18446744073709551615:C0 prio=7 cc=drop express=0 rel=1 src=0:4294967295:0 att=xFF
< 2 ok
< 2 send push s0:k del ts=18446744073709551615:c0 prio=7 cc=drop express=0 rel=1 src=0:4294967295:0 att=xff
< 2 hand sub 2 del k x enc=zenoh/bytes ts=18446744073709551615:c0 prio=7 cc=drop express=0 rel=1 src=0:4294967295:0 att=xff
net push s0:k del ts=0:0 cc=block att=x
< 3 ok
< 3 hand sub 2 del k x enc=zenoh/bytes ts=0:0 prio=5 cc=block express=0 rel=1 att=x
delete local k express=1
< 4 ok
< 4 hand sub 2 del k x enc=zenoh/bytes prio=5 cc=drop express=1 rel=1
< 5 ok
< 5 send close
< 5 end sub 2",
    },
    Transcript {
        name: "an encoding with any characters, the empty one, and all options of a message",
        text: "\
sub remote k
< 1 ok 2
< 1 send sub 2 s0:k
put any k x enc=a=b;é
< 2 ok
< 2 send push s0:k put x enc=a=b;é prio=5 cc=drop express=0 rel=1
put any k x enc=
< 3 ok
< 3 send push s0:k put x %
net push s0:k put xAB enc= ts=7:Ff prio=7 cc=block express=1 rel=0 src=fF:1:2 att=x00
< 4 ok
< 4 hand sub 2 put k xab enc=zenoh/bytes ts=7:ff prio=7 cc=block express=1 rel=0 src=ff:1:2 att=x00
< 5 ok
< 5 send close
< 5 end sub 2",
    },
];

/// The options of puts and deletions come out in messages and samples, with the defaults filled in.
#[test]
fn samples_carry_their_options(rt: HostRuntime) -> Result<(), Fail> {
    assert_printed(&rt, "drive", &SAMPLES)
}
