//! Queriers: what their gets ask, what they share, and how they end.

use super::{Transcript, assert_printed};
use std::test::Fail;

static QUERIERS: [Transcript; 5] = [
    Transcript {
        name: "a querier that ends takes its open get with it",
        text: "\
querier any k
< 1 ok 2
< 1 send interest 2 currentfuture queryables s0:k
qget 2
< 2 ok 0
< 2 send request 0 s0:k target=best cons=latest timeout=10000 G
undeclare querier 2
< 3 ok
< 3 send interest 2 final none
< 3 end get 0
net response 0 s0:k put x01
< 4 refused Ignored
qget 2
< 5 refused NotFound
< 6 ok
< 6 send close",
    },
    Transcript {
        name: "two queriers on one key, one with its own timeout",
        text: "\
querier any k
< 1 ok 2
< 1 send interest 2 currentfuture queryables s0:k
querier any k cons=none timeout=20
< 2 ok 3
qget 2
< 3 ok 0
< 3 send request 0 s0:k target=best cons=latest timeout=10000 G
qget 3
< 4 ok 1
< 4 send request 1 s0:k target=best cons=none timeout=20 G
tick 20
< 5 ok
< 5 reply get 1 err x54696d656f7574 enc=zenoh/string
< 5 end get 1
undeclare querier 2
< 6 ok
< 6 end get 0
undeclare querier 3
< 7 ok
< 7 send interest 2 final none
< 8 ok
< 8 send close",
    },
    Transcript {
        name: "a querier's settings stand for its gets",
        text: "\
queryable any partial a/b
< 1 ok 2
< 1 send queryable 2 partial s0:a/b
queryable any complete a/**
< 2 ok 3
< 2 send queryable 3 complete s0:a/**
querier local a/* target=allcomplete prio=2 cc=drop express=1 accept=any
< 3 ok 4
qget 4 params=x=1 payload=x07 enc=text/plain att=x08
< 4 ok 0
< 4 hand queryable 3 0 a/* params=x=1;_anyke payload=x07 enc=text/plain prio=2 cc=drop express=1 att=x08
reply 0 c x01
< 5 ok
finish 0
< 6 ok
< 6 reply get 0 put c x01 enc=zenoh/bytes prio=2 cc=drop express=1 rel=1 by=1:3
< 6 end get 0
< 7 ok
< 7 send close
< 7 end queryable 2
< 7 end queryable 3",
    },
    Transcript {
        name: "an ended querier's get hands out nothing that it kept",
        text: "\
querier remote a/*
< 1 ok 2
< 1 send interest 2 currentfuture queryables s0:a/*
qget 2
< 2 ok 0
< 2 send request 0 s0:a/* target=best cons=latest timeout=10000 G
get remote a/*
< 3 ok 1
< 3 send request 1 s0:a/* target=best cons=latest timeout=10000 G
net response 0 s0:a/b put x01
< 4 ok
net response 1 s0:a/b put x02
< 5 ok
undeclare querier 2
< 6 ok
< 6 send interest 2 final none
< 6 end get 0
net responsefinal 1
< 7 ok
< 7 reply get 1 put a/b x02 enc=zenoh/bytes G rel=1
< 7 end get 1
< 8 ok
< 8 send close",
    },
    Transcript {
        name: "a querier on a declared key",
        text: "\
key a
< 1 ok 1
< 1 send keyexpr 1 s0:a
querier any #1:/b
< 2 ok 2
< 2 send interest 2 currentfuture queryables s1:/b
qget 2
< 3 ok 0
< 3 send request 0 s1:/b target=best cons=latest timeout=10000 G
undeclare key #1
< 4 ok
< 4 send unkeyexpr 1
qget 2
< 5 ok 1
< 5 send request 1 s0:a/b target=best cons=latest timeout=10000 G
< 6 ok
< 6 send close
< 6 end get 0
< 6 end get 1",
    },
];

/// Gets of a querier ask with its settings, and end with it.
#[test]
fn queriers_ask_in_their_way(rt: HostRuntime) -> Result<(), Fail> {
    assert_printed(&rt, "drive", &QUERIERS)
}
