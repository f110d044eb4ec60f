//! Walks over the rows of numbers, from each that passes a test to the next.

ghost use Rattle.std.specs.Prelude.{◌≡◌, ◌==◌, ℕ, true, IfSome};
ghost use Rattle.std.specs.List.{list_any};
ghost use Rattle.zs_rows.specs.Rows.{row_at, is_behind};
ghost use Rattle.zs_subscriptions.specs.Ascending.{Ascend};
ghost use Rattle.zs_subscriptions.specs.Lists.{IsAscending};
ghost use Rattle.zs_subscriptions.specs.NumberRows.{AreNumberRows, is_met, lists_id, IsNextSuch};

use crate::number_row::NumberRow;
use crate::places::id_place;
use zs_keys::KeyExpr;
use zs_rows::Rows;

/// The next number behind the last one.
pub(crate) fn next_number(rows: &Rows<NumberRow>, after: Option<u32>) -> Option<u32>
    requires { AreNumberRows rows.now }
    ensures { IsNextSuch (λ row. true) after rows.now result }
{
    match rows.next_behind(after) {
        Some((number, _row)) => Some(number),
        None => None,
    }
}

/// The next number behind the last one whose key has a key in common with this one.
pub(crate) fn next_met(rows: &Rows<NumberRow>, key: &KeyExpr<'_>, after: Option<u32>) -> Option<u32>
    requires { AreNumberRows rows.now }
    ensures { IsNextSuch (is_met key.now.text) after rows.now result }
{
    for (number, row) in rows.iter_behind(after) {
        if row.key.meets(key) {
            return Some(*number);
        }
    }
    None
}

/// The next number behind the last one whose list has that id.
pub(crate) fn next_listing(rows: &Rows<NumberRow>, id: u32, after: Option<u32>) -> Option<u32>
    requires rows { AreNumberRows rows.now }
    requires lists { (q : ℕ) → is_behind after q ≡ true → IfSome (row_at q rows.now) IsAscending }
    ensures { IsNextSuch (lists_id id) after rows.now result }
{
    for (number, row) in rows.iter_behind(after) {
        if has_id(&row.matches, id) {
            return Some(*number);
        }
    }
    None
}

/// Whether an id is in an ascending list.
fn has_id(ids: &[u32], id: u32) -> bool
    requires { Ascend (λ id. id) ids.now }
    ensures { result ≡ list_any (λ other. other == id) ids.now }
{
    match id_place(ids, id) {
        Ok(_) => true,
        Err(_) => false,
    }
}
