//! Who receives a publication next.

ghost use Rattle.std.specs.Prelude.{◌≡◌, filter, OnOk, OnErr};
ghost use Rattle.std.specs.List.{find};
ghost use Rattle.zs_subscriptions.specs.Ascending.{Ascend};
ghost use Rattle.zs_subscriptions.specs.Lists.{takes_by_id};
ghost use Rattle.zs_subscriptions.specs.Recipients.{matches, takes, is_behind};

use crate::subscriber::SubRow;
use std::alloc::AllocError;
use std::sync::ledger::Ledger;
use zs_keyed::KeyedRows;
use zs_keys::{KeyExpr, Steps};
use zs_sample::Locality;

/// Whether those of that origin take what was made here, or what came in.
pub fn takes(local: bool, origin: Locality) -> bool
    ensures { result ≡ takes local origin }
{
    if local {
        matches!(origin, Locality::SessionLocal | Locality::Any)
    } else {
        matches!(origin, Locality::Remote | Locality::Any)
    }
}

/// Whether the subscriber of that id takes it.
fn takes_by_id(local: bool, rows: &KeyedRows<SubRow>, id: u32) -> bool
    requires { Ascend (λ row. row.id) rows.now }
    ensures { result ≡ takes_by_id local rows.now id }
{
    let Some(row) = rows.find(id) else {
        return false;
    };
    takes(local, row.origin)
}

/// The first of the ids whose subscriber takes it.
pub(crate) fn first_by_id(local: bool, rows: &KeyedRows<SubRow>, ids: &[u32]) -> Option<u32>
    requires { Ascend (λ row. row.id) rows.now }
    ensures { result ≡ find (takes_by_id local rows.now) ids.now }
{
    for id in ids {
        if takes_by_id(local, rows, *id) {
            return Some(*id);
        }
    }
    None
}

/// The first subscriber in the tree that takes a publication on that key, behind the last one, if there was one.
pub(crate) fn first_in_tree<L: Ledger>(
    local: bool,
    rows: &KeyedRows<SubRow>,
    key: &KeyExpr<'_>,
    after: Option<u32>,
    steps: &mut Steps<L>,
) -> Option<u32>
    requires rows { Ascend (λ row. row.id) rows.now }
    requires ids { Ascend (λ id. id) (matches key.now.text rows.now) }
    ensures { result ≡ find (takes_by_id local rows.now) (filter (is_behind after) (matches key.now.text rows.now)) }
{
    let mut last = after;
    while let Some(id) = rows.least_above(key, last, steps) {
        if takes_by_id(local, rows, id) {
            return Some(id);
        }
        last = Some(id);
    }
    None
}

/// Leaves those ids out of a list whose subscribers do not take it.
pub(crate) fn keep_takers(local: bool, rows: &KeyedRows<SubRow>, ids: &mut Vec<u32>)
    requires { Ascend (λ row. row.id) rows.now }
    ensures { ids.new.items ≡ filter (takes_by_id local rows.now) ids.old.items }
{
    ids.retain(|id| takes_by_id(local, rows, *id));
}

/// Makes a list those ids.
pub(crate) fn copy_ids(ids: &[u32], into: &mut Vec<u32>) -> Result<(), AllocError>
    ensures ok { OnOk result (into.new.items ≡ ids.now) }
    ensures err { OnErr result (into.new.items ≡ into.old.items) }
{
    into.reserve(ids.len())?;
    into.clear();
    let _ = into.extend_from_slice(ids);
    Ok(())
}
