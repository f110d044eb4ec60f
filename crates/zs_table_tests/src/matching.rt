//! What the other side declared, listeners to matching, and how many match one at first.

use std::alloc::Global;
use zs_keys::KeyExpr;
use zs_sample::Locality;
use zs_tables::{
    Candidate, ListenerRow, ListenerTable, Present, QueryableTable, RemoteQueryable,
    RemoteSubscriber, RemoteTable, Sought, SubRow, Tables,
};

/// Whether a subscriber's second declaration takes the place of the first one.
pub fn declare(alloc: Global, wild: KeyExpr<'static>, key: KeyExpr<'static>) -> bool {
    let mut told = RemoteTable::new(alloc);
    let first = told.set_sub(RemoteSubscriber {
        number: 9,
        key: wild,
    });
    let second = told.set_sub(RemoteSubscriber { number: 9, key });
    first.is_ok() && second.is_ok() && told.sub_count() == 1
}

/// Listener 3 to the matching of publisher or querier 2, wherever those that it seeks are.
fn listener(sought: Sought, key: KeyExpr<'static>) -> ListenerRow {
    ListenerRow {
        id: 3,
        parent: 2,
        destination: Locality::Any,
        sought,
        key,
    }
}

/// Whether one that the other side declared matches a listener.
fn is_counted(alloc: Global, told: &RemoteTable, row: &ListenerRow) -> bool {
    let tables = Tables::new(alloc);
    let queryables = QueryableTable::new(alloc);
    let present = Present {
        tables: &tables,
        queryables: &queryables,
        remote_entities: told,
    };
    present.count(alloc, row) == Ok(1)
}

/// Whether a subscriber that the other side declared counts for a publisher's listener.
pub fn count_subscribers(alloc: Global, wild: KeyExpr<'static>, key: KeyExpr<'static>) -> bool {
    let mut told = RemoteTable::new(alloc);
    let set = told.set_sub(RemoteSubscriber {
        number: 9,
        key: wild,
    });
    let row = listener(Sought::Subscribers, key);
    set.is_ok() && is_counted(alloc, &told, &row)
}

/// Whether a complete queryable that the other side declared counts for a querier that wants complete ones.
pub fn count_queryables(alloc: Global, wild: KeyExpr<'static>, key: KeyExpr<'static>) -> bool {
    let mut told = RemoteTable::new(alloc);
    let set = told.set_queryable(RemoteQueryable {
        number: 4,
        complete: true,
        key: wild,
    });
    let row = listener(Sought::CompleteQueryables, key);
    set.is_ok() && is_counted(alloc, &told, &row)
}

/// Whether a listener without a match hears of a subscriber that comes.
fn hears(table: &ListenerTable, row: &SubRow) -> bool {
    match table.recounts(None, Some(Candidate::own_sub(row))) {
        Ok(all) => all.len() == 1 && all[0].id == 3 && all[0].is == 1,
        Err(_) => false,
    }
}

/// Whether a new listener that nobody matches hears of the first subscriber that does.
pub fn hear(alloc: Global, wild: KeyExpr<'static>, key: KeyExpr<'static>) -> bool {
    let mut table = ListenerTable::new(alloc);
    let added = table.add(listener(Sought::Subscribers, wild), 0).is_ok();
    let row = SubRow {
        id: 4,
        origin: Locality::Any,
        key,
    };
    added && hears(&table, &row)
}
