//! What came back of the calls of handlers.
ghost use Rattle.std.specs.Prelude.{◌≡◌, [], ◌++◌, IfSome, IfNone, OnOk, OnErr};
ghost use Rattle.std.specs.Option.{option_to_list};
ghost use Rattle.zs_cell.specs.Works.{query_in, returned_in, returned};

use crate::ending::AllTold;
use std::alloc::AllocError;
use std::collections::VecDeque;
use std::marker::Model;
use zs_hands::Handed;
use zs_turns::{Item, Query};

/// A query that came back from a handler. It can't be let go: who has one gives it back to its session.
pub(crate) struct Returned {
    query: Query,
}

impl Model for Returned {
    ghost use Rattle.zs_turns.specs.Queries.{QuerySeen};

    ghost Value = { QuerySeen };

    ghost view = { λ r. r.query };
}

impl Returned {
    /// The number under which it is given back.
    pub(crate) fn into_value(self) -> u32
        ensures { result ≡ self.value }
    {
        let Returned { query } = self;
        let value = query.value();
        drop(query);
        value
    }
}

// The query that an item is, if it is one of the session of that tag.
fn own_query(tag: u64, item: Item) -> Option<Returned>
    ensures is { option_to_list result ≡ query_in tag item }
    ensures own { IfSome result (λ query. query.tag ≡ tag) }
{
    match item {
        Item::Query(query) => {
            if query.tag() == tag {
                Some(Returned { query })
            } else {
                drop(query);
                None
            }
        }
        Item::Sample(sample) => {
            drop(sample);
            None
        }
        Item::Reply(reply) => {
            drop(reply);
            None
        }
        Item::Matching(_) => None,
    }
}

// The query of that session that came back in a report, if one did.
fn returned_query<D: Drop>(tag: u64, asks: bool, report: Handed<Item, D>) -> Option<Returned>
    ensures is { option_to_list result ≡ returned_in tag asks report }
    ensures own { IfSome result (λ query. query.tag ≡ tag) }
{
    match report {
        Handed::Called(done) => {
            drop(done);
            None
        }
        Handed::Evicted(item, done) => {
            drop(done);
            own_query(tag, item)
        }
        Handed::Skipped(item) => {
            if asks {
                own_query(tag, item)
            } else {
                drop(item);
                None
            }
        }
    }
}

// Takes reports out up to the first with such a query: that query, if there is one.
fn next_query<D: Drop>(
    tag: u64,
    asks: bool,
    reports: &mut VecDeque<Handed<Item, D>>,
) -> Option<Returned>
    ensures first { option_to_list result ++ returned tag asks reports.new.items ≡ returned tag asks reports.old.items }
    ensures own { IfSome result (λ query. query.tag ≡ tag) }
    ensures none { IfNone result (reports.new.items ≡ []) }
{
    while let Some(report) = reports.pop_front() {
        if let Some(query) = returned_query(tag, asks, report) {
            return Some(query);
        }
    }
    None
}

/// What became of each item that was handed out, in order. It can't be let go before the queries are taken out that came back, nor
/// before the session was asked for what has ended behind the calls that are reported.
pub(crate) struct Reports<D> {
    items: VecDeque<Handed<Item, D>>,
}

impl<D> Model for Reports<D> {
    ghost use Rattle.std.specs.Prelude.{List};
    ghost use Rattle.zs_hands.specs.declared.handed.Handed.{Handed};
    ghost use Rattle.zs_turns.specs.declared.item.Item.{Item};

    ghost Value = { List (Handed Item D) };

    ghost view = { λ r. r.items.items };
}

impl<D: Drop> Reports<D> {
    /// What became of the items, as the session told it when the passes went back.
    pub(crate) fn of(reports: Vec<Handed<Item, D>>) -> Reports<D>
        ensures { result ≡ reports.items }
    {
        Reports {
            items: VecDeque::from_vec(reports),
        }
    }

    // Takes the first query out that came back and is of the session of that tag, if there is one.
    pub(crate) fn next(&mut self, tag: u64, asks: bool) -> Option<Returned>
        ensures first { option_to_list result ++ returned tag asks self.new ≡ returned tag asks self.old }
        ensures own { IfSome result (λ query. query.tag ≡ tag) }
        ensures none { IfNone result (self.new ≡ []) }
    {
        next_query(tag, asks, &mut self.items)
    }

    // Puts others behind these, for whose calls all ends were told too. Want of memory lets them go.
    pub(crate) fn add(&mut self, more: Reports<D>, told: AllTold) -> Result<(), AllocError>
        ensures ok { OnOk result (self.new ≡ self.old ++ more) }
        ensures err { OnErr result (self.new ≡ self.old) }
    {
        drop(told);
        let Reports { mut items } = more;
        let added = self.items.append(&mut items);
        drop(items);
        added
    }

    // Lets none go, once all ends were told that came with the calls.
    pub(crate) fn end(self, told: AllTold)
        requires { self ≡ [] }
    {
        drop(told);
        let Reports { items } = self;
        drop(items);
    }
}
