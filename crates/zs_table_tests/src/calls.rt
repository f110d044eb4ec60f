//! Each call of the tables that takes memory succeeds where there is memory: a worked case of each table.

use crate::{gets, liveliness, matching, requests, tables};
use std::alloc::Global;
use zs_keys::{KeyError, KeyExpr};

/// A worked case.
enum Case {
    Subscribers,
    Groups,
    Told,
    ToldSubscribers,
    ToldQueryables,
    Listeners,
    LivelinessSubscribers,
    LivelinessGets,
    Tokens,
    Gets,
    Ticks,
    AskedGets,
    HandedGets,
    Queries,
}

static CASES: [(Case, &str); 14] = [
    (Case::Subscribers, "subscribers"),
    (Case::Groups, "groups"),
    (Case::Told, "what the other side declared"),
    (Case::ToldSubscribers, "told subscribers"),
    (Case::ToldQueryables, "told queryables"),
    (Case::Listeners, "listeners"),
    (Case::LivelinessSubscribers, "liveliness subscribers"),
    (Case::LivelinessGets, "liveliness gets"),
    (Case::Tokens, "tokens"),
    (Case::Gets, "gets"),
    (Case::Ticks, "ticks"),
    (Case::AskedGets, "asked gets"),
    (Case::HandedGets, "gets that are handed out"),
    (Case::Queries, "queries"),
];

/// Whether a case holds, with a wild key and one that it includes.
fn holds(alloc: Global, case: &Case, wild: KeyExpr<'static>, key: KeyExpr<'static>) -> bool {
    match case {
        Case::Subscribers => tables::reach(alloc, wild, key),
        Case::Groups => tables::join(alloc),
        Case::Told => matching::declare(alloc, wild, key),
        Case::ToldSubscribers => matching::count_subscribers(alloc, wild, key),
        Case::ToldQueryables => matching::count_queryables(alloc, wild, key),
        Case::Listeners => matching::hear(alloc, wild, key),
        Case::LivelinessSubscribers => liveliness::hear(alloc, wild, key),
        Case::LivelinessGets => liveliness::ask(alloc, wild, key),
        Case::Tokens => liveliness::record(alloc, wild, key),
        Case::Gets => gets::end(alloc, wild, key),
        Case::Ticks => gets::tick(alloc, wild, key),
        Case::AskedGets => gets::ask(alloc, wild, key),
        Case::HandedGets => requests::hand(alloc, wild, key),
        Case::Queries => requests::query(alloc, key),
    }
}

/// Whether a case holds by `a/*` and `a/b`.
fn works(alloc: Global, case: &Case) -> Result<bool, KeyError> {
    let wild = KeyExpr::new("a/*")?;
    let key = KeyExpr::new("a/b")?;
    Ok(holds(alloc, case, wild, key))
}

/// The worked case of each table holds while memory is there.
#[test]
fn calls_succeed(rt: HostRuntime) {
    for (case, name) in &CASES {
        assert!(rt; works(rt.alloc(), case) == Ok(true), "{name}");
    }
}
