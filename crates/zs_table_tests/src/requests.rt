//! Requests and their query values.

use crate::gets::row;
use std::alloc::Global;
use zs_bytes::ZBytes;
use zs_keys::KeyExpr;
use zs_query::{GetTable, QueryData, RequestRow, RequestTable};
use zs_sample::{CongestionControl, ConsolidationMode, QoSType, Text};
use zs_wire::Value;

/// A request of get 0, with a value and an attachment.
fn request(key: KeyExpr<'static>) -> RequestRow {
    RequestRow {
        local: true,
        rid: 0,
        key,
        parameters: Text::empty(),
        qos: QoSType {
            priority: 3,
            congestion: CongestionControl::Block,
            express: true,
        },
        source: None,
        value: Some(Value {
            payload: ZBytes::new(),
            encoding: Text::zenoh_bytes(),
        }),
        attachment: Some(ZBytes::new()),
    }
}

/// Whether the first of two values can be shared.
fn is_shared(requests: &mut RequestTable) -> bool {
    requests.next() == 2 && requests.share(0).is_ok() && requests.left(0) == 3
}

/// Whether a get hands its request to two queryables, and the value of one of them can be shared.
pub fn hand(alloc: Global, wild: KeyExpr<'static>, key: KeyExpr<'static>) -> bool {
    let mut table = GetTable::new(alloc, 0);
    let mut requests = RequestTable::new(alloc);
    let row = row(wild, ConsolidationMode::Latest);
    let asked = table.ask_of(row, &mut requests, request(key), &[2, 7]);
    asked.is_ok() && is_shared(&mut requests)
}

/// Whether a query can be copied while memory is there.
fn is_copied(alloc: Global, query: &QueryData) -> bool {
    match query.try_clone(alloc) {
        Ok(copy) => {
            drop(copy);
            true
        }
        Err(_) => false,
    }
}

/// Whether a request's query is made, and copied.
pub fn query(alloc: Global, key: KeyExpr<'static>) -> bool {
    match QueryData::of(alloc, &request(key)) {
        Ok(query) => is_copied(alloc, &query),
        Err(_) => false,
    }
}
