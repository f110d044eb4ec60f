//! Queries that are handed to queryables: how they are answered, shared and given back.

use super::{Transcript, assert_printed};
use std::test::Fail;

static VALUES: [Transcript; 5] = [
    Transcript {
        name: "a query of the network under two numbers ends where the last is given back",
        text: "\
queryable any partial a
< 1 ok 2
< 1 send queryable 2 partial s0:a
net request 4 s0:a
< 2 ok
< 2 hand queryable 2 0 a G
share 0
< 3 ok 1
finish 0
< 4 ok
finish 1
< 5 ok
< 5 send responsefinal 4
< 6 ok
< 6 send close
< 6 end queryable 2",
    },
    Transcript {
        name: "a get that asks for complete queryables meets no partial one",
        text: "\
queryable any partial a
< 1 ok 2
< 1 send queryable 2 partial s0:a
get any a target=allcomplete
< 2 ok 0
< 2 send request 0 s0:a target=allcomplete cons=latest timeout=10000 G
net responsefinal 0
< 3 ok
< 3 end get 0
< 4 ok
< 4 send close
< 4 end queryable 2",
    },
    Transcript {
        name: "each side's final counts once",
        text: "\
get local a
< 1 ok 0
< 1 end get 0
queryable local partial a
< 2 ok 2
get any a
< 3 ok 1
< 3 send request 1 s0:a target=best cons=latest timeout=10000 G
< 3 hand queryable 2 0 a G
net responsefinal 1
< 4 ok
net responsefinal 1
< 5 refused Ignored
reply 0 a x01
< 6 ok
finish 0
< 7 ok
< 7 reply get 1 put a x01 enc=zenoh/bytes G rel=1 by=1:2
< 7 end get 1
finish 0
< 8 refused NotFound
get local a
< 9 ok 2
< 9 hand queryable 2 1 a G
net responsefinal 2
< 10 refused Ignored
finish 1
< 11 ok
< 11 end get 2
< 12 ok
< 12 send close
< 12 end queryable 2",
    },
    Transcript {
        name: "replies on other keys, errors for the network, and requests that meet nobody",
        text: "\
queryable any partial a/*
< 1 ok 2
< 1 send queryable 2 partial s0:a/*
get any a/b cons=none
< 2 ok 0
< 2 send request 0 s0:a/b target=best cons=none timeout=10000 G
< 2 hand queryable 2 0 a/b G
reply 0 a/c x01
< 3 refused ReplyDisjoint
get any a/b?_anyke cons=none
< 4 ok 1
< 4 send request 1 s0:a/b params=_anyke target=best cons=none timeout=10000 G
< 4 hand queryable 2 1 a/b params=_anyke G
reply 1 a/c x01
< 5 ok
< 5 reply get 1 put a/c x01 enc=zenoh/bytes G rel=1 by=1:2
net request 9 s0:a/b
< 6 ok
< 6 hand queryable 2 2 a/b G
replyerr 2 x01
< 7 ok
< 7 send response 9 s0:a/b err x01 enc=zenoh/bytes G by=1:2
finish 2
< 8 ok
< 8 send responsefinal 9
net request 9 s0:z
< 9 ok
< 9 send responsefinal 9
net request 9 s4:z
< 10 refused UnknownScope
< 11 ok
< 11 send close
< 11 end queryable 2
< 11 end get 0
< 11 end get 1",
    },
    Transcript {
        name: "replies on a declared number and on its text",
        text: "\
key test/reply_declared_ke
< 1 ok 1
< 1 send keyexpr 1 s0:test/reply_declared_ke
queryable any partial test/**
< 2 ok 2
< 2 send queryable 2 partial s0:test/**
net request 1 s0:test/**
< 3 ok
< 3 hand queryable 2 0 test/** G
reply 0 #1 x7061796c6f6164
< 4 ok
< 4 send response 1 s1: put x7061796c6f6164 enc=zenoh/bytes G by=1:2
reply 0 test/reply_declared_ke x7061796c6f6164
< 5 ok
< 5 send response 1 s0:test/reply_declared_ke put x7061796c6f6164 enc=zenoh/bytes G by=1:2
finish 0
< 6 ok
< 6 send responsefinal 1
< 7 ok
< 7 send close
< 7 end queryable 2",
    },
];

/// A request ends when the last of its query values is given back.
#[test]
fn queries_are_answered_and_given_back(rt: HostRuntime) -> Result<(), Fail> {
    assert_printed(&rt, "drive", &VALUES)
}
