//! Subscribers to liveliness, gets of it, and tokens that the other side told.

use std::alloc::{AllocError, Global};
use zs_keys::KeyExpr;
use zs_tables::{
    LivelinessGet, LivelinessGets, LivelinessSub, LivelinessSubs, RemoteToken, RemoteTokens,
};

/// Whether a subscriber hears of a token.
pub fn hear(alloc: Global, wild: KeyExpr<'static>, token: KeyExpr<'static>) -> bool {
    let mut subs = LivelinessSubs::new(alloc);
    let mut found = Vec::new(alloc);
    let put = subs.put(LivelinessSub {
        id: 4,
        history: true,
        key: wild,
    });
    let heard = subs.hearers_into(&token, true, &mut found);
    put.is_ok() && heard.is_ok() && found.as_slice() == [4].as_slice()
}

/// Get 7, with a token and a deadline.
fn get(key: KeyExpr<'static>, token: u32, deadline: u64) -> LivelinessGet {
    LivelinessGet {
        number: 7,
        key,
        cancellation_token: Some(token),
        deadline,
    }
}

/// Whether get 7 alone was found, and there was memory for the list.
fn is_seven(found: Result<Vec<u32>, AllocError>) -> bool {
    match found {
        Ok(found) => found.as_slice() == [7].as_slice(),
        Err(_) => false,
    }
}

/// Whether the second of two gets of one number is found by each look.
pub fn ask(alloc: Global, wild: KeyExpr<'static>, key: KeyExpr<'static>) -> bool {
    let mut gets = LivelinessGets::new(alloc);
    let first = gets.open(get(wild, 1, 20));
    let second = gets.open(get(key, 2, 9));
    first.is_ok()
        && second.is_ok()
        && is_seven(gets.numbers(alloc))
        && is_seven(gets.numbers_with(alloc, 2))
        && is_seven(gets.over_at(alloc, 9))
}

/// Whether one token alone has a key that meets this one.
fn is_met(tokens: &RemoteTokens, key: &KeyExpr<'_>) -> bool {
    match tokens.met_keys(key) {
        Ok(keys) => keys.len() == 1,
        Err(_) => false,
    }
}

/// Whether a token's key is met.
pub fn record(alloc: Global, wild: KeyExpr<'static>, token: KeyExpr<'static>) -> bool {
    let mut tokens = RemoteTokens::new(alloc);
    let recorded = tokens.record(RemoteToken {
        number: 7,
        key: token,
    });
    recorded.is_ok() && is_met(&tokens, &wild)
}
