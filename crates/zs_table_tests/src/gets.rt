//! Open gets: what replies, errors, finals and moments come to.

ghost use Rattle.std.specs.Prelude.{◌≡◌, IsOk, true};
ghost use Rattle.zs_wire.specs.declared.request.ConsolidationMode.{ConsolidationMode};

use std::alloc::{AllocError, Global};
use zs_bytes::ZBytes;
use zs_keys::KeyExpr;
use zs_query::{Ends, GetRow, GetTable, Gets, Outcome, Side};
use zs_sample::{
    CongestionControl, ConsolidationMode, Encoding, Priority, Reliability, Reply, ReplyError,
    Sample, SampleFields, SampleKind, Timestamp,
};

/// Get 0, which waits for the network's final, and is due at 15.
pub fn row(key: KeyExpr<'static>, mode: ConsolidationMode) -> GetRow
    ensures number { result.number ≡ 0 }
    ensures mode { result.mode ≡ mode }
    ensures waits { result.network_wanted ≡ true }
{
    GetRow {
        number: 0,
        key,
        any_key: false,
        mode,
        local_wanted: false,
        network_wanted: true,
        deadline: 15,
        querier: Some(1),
        cancellation_token: Some(2),
    }
}

/// A put on that key as a reply, with a timestamp, and without the id of who replies.
fn reply(key_expr: KeyExpr<'static>) -> Reply
    ensures { IsOk result.result }
{
    let sample = Sample::from_fields(SampleFields {
        key_expr,
        payload: ZBytes::new(),
        kind: SampleKind::Put,
        encoding: Encoding::default(),
        timestamp: Some(Timestamp { time: 5, id: 1 }),
        express: false,
        priority: Priority::Data,
        congestion_control: CongestionControl::Block,
        reliability: Reliability::Reliable,
        source_info: None,
        attachment: None,
    });
    Reply::of(Ok(sample), None)
}

/// The sign of an outcome: `+` of a reply that is kept, `1` of one that is handed out, and `.` of an end.
fn sign(outcome: Result<Outcome, AllocError>) -> char {
    match outcome {
        Ok(Outcome::Kept) => '+',
        Ok(Outcome::Handed(reply)) => {
            drop(reply);
            '1'
        }
        Ok(Outcome::Ended(replies)) => {
            drop(replies);
            '.'
        }
        _ => '?',
    }
}

/// Whether an error is handed out, and the get ends at the final.
fn fails_and_ends(gets: &mut Gets) -> bool {
    let error = Reply::of(Err(ReplyError::empty()), None);
    sign(gets.error(0, error)) == '1' && sign(gets.final_in(0, Side::Network)) == '.'
}

/// Whether a get keeps a reply, is handed an error and ends.
pub fn end(alloc: Global, wild: KeyExpr<'static>, key: KeyExpr<'static>) -> bool {
    let mut gets = Gets::new(alloc);
    let opened = gets.open(row(wild, ConsolidationMode::Latest)).is_ok();
    let kept = sign(gets.reply(0, reply(key)));
    opened && kept == '+' && fails_and_ends(&mut gets)
}

/// Whether get 0 alone was found, and there was memory for the list.
fn is_number(found: Result<Vec<u32>, AllocError>) -> bool {
    match found {
        Ok(found) => found.as_slice() == [0].as_slice(),
        Err(_) => false,
    }
}

/// Whether get 0 alone ended.
fn is_end(alloc: Global, ends: Result<Ends, AllocError>) -> bool {
    match ends {
        Ok(ends) => is_number(ends.numbers(alloc)),
        Err(_) => false,
    }
}

/// Whether a get hands a reply out, and ends at its deadline.
pub fn tick(alloc: Global, wild: KeyExpr<'static>, key: KeyExpr<'static>) -> bool {
    let mut gets = Gets::new(alloc);
    let opened = gets.open(row(wild, ConsolidationMode::Monotonic)).is_ok();
    let handed = sign(gets.reply(0, reply(key)));
    opened && handed == '1' && is_end(alloc, gets.tick(15))
}

/// Whether get 0 is found by each look.
fn looks(alloc: Global, gets: &Gets) -> bool {
    is_number(gets.numbers())
        && sign(gets.peek_final(0, Side::Network)) == '.'
        && is_end(alloc, gets.peek_tick(15))
}

/// Whether a get that keeps a reply is found.
pub fn ask(alloc: Global, wild: KeyExpr<'static>, key: KeyExpr<'static>) -> bool {
    let mut table = GetTable::new(alloc, 0);
    let asked = table.ask(row(wild, ConsolidationMode::Latest)).is_ok();
    let taken = table.take(0, reply(key)).is_ok();
    asked && taken && looks(alloc, table.gets())
}
