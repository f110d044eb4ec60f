//! What listeners hear of a change.

ghost use Rattle.std.specs.Prelude.{◌≡◌, ◌==◌, IfOk, option_map};
ghost use Rattle.std.specs.List.{find};
ghost use Rattle.zs_subscriptions.specs.Ascending.{Ascend};
ghost use Rattle.zs_tables.specs.Matching.{own_sub, own_queryable, remote_subscriber, remote_queryable, seen_if, recounts};

use std::alloc::AllocError;
use zs_tables::{Candidate, ListenerTable, QueryableTable, Recount, RemoteTable, Tables};

/// What becomes of the counts where one candidate goes and another one comes.
pub fn recounts_of(
    listeners: &ListenerTable,
    goes: Option<Candidate<'_>>,
    comes: Option<Candidate<'_>>,
) -> Result<Vec<Recount>, AllocError>
    ensures all { IfOk result (λ all. all.items ≡ recounts (seen_if goes.entry) (seen_if comes.entry) listeners.now) }
    ensures ascending { Ascend (λ l. l.row.id) listeners.now }
{
    let _ascending = listeners.len();
    listeners.recounts(goes, comes)
}

/// The subscriber of that id, as listeners see it.
pub fn own_sub_of(tables: &Tables, id: u32) -> Option<Candidate<'_>>
    ensures { seen_if result ≡ option_map own_sub (find (λ row. row.id == id) tables.now.rows) }
{
    match tables.row(id) {
        Some(row) => Some(Candidate::own_sub(row)),
        None => None,
    }
}

/// The queryable of that id.
pub fn own_queryable_of(queryables: &QueryableTable, id: u32) -> Option<Candidate<'_>>
    ensures { seen_if result ≡ option_map own_queryable (find (λ row. row.id == id) queryables.now) }
{
    match queryables.find(id) {
        Some(row) => Some(Candidate::own_queryable(row)),
        None => None,
    }
}

/// The subscriber that the network told of that number.
pub fn remote_subscriber_of(told: &RemoteTable, number: u32) -> Option<Candidate<'_>>
    ensures { seen_if result ≡ option_map remote_subscriber (find (λ row. row.number == number) told.now.subs) }
{
    match told.find_sub(number) {
        Some(row) => Some(Candidate::remote_subscriber(row)),
        None => None,
    }
}

/// The queryable that the network told of that number.
pub fn remote_queryable_of(told: &RemoteTable, number: u32) -> Option<Candidate<'_>>
    ensures { seen_if result ≡ option_map remote_queryable (find (λ row. row.number == number) told.now.queryables) }
{
    match told.find_queryable(number) {
        Some(row) => Some(Candidate::remote_queryable(row)),
        None => None,
    }
}
