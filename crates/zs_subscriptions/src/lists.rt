//! The lists that the numbers keep.

ghost use Rattle.std.specs.Prelude.{◌≡◌, ◌==◌, All, map, filter, not, true, IfSome, OnOk};
ghost use Rattle.zs_rows.specs.Rows.{row_at, rows_of};
ghost use Rattle.zs_subscriptions.specs.Ascending.{Ascend};
ghost use Rattle.zs_subscriptions.specs.Lists.{shown, HasRoomFor, IsAscending, noted, forgotten, emptied};
ghost use Rattle.zs_subscriptions.specs.NumberRows.{AreNumberRows, ChangesAt, HasRoom, joined, kept};

use crate::nexts::{next_listing, next_met, next_number};
use crate::number_row::NumberRow;
use crate::places::id_place;
use std::alloc::AllocError;
use zs_keys::KeyExpr;
use zs_rows::Rows;

/// Makes room for one more id in each list whose key has a key in common with this one.
pub(crate) fn reserve_lists(rows: &mut Rows<NumberRow>, key: &KeyExpr<'_>) -> Result<(), AllocError>
    requires { AreNumberRows rows.old }
    ensures rows { AreNumberRows rows.new }
    ensures same { map shown (rows_of rows.new) ≡ map shown (rows_of rows.old) }
    ensures room { OnOk result (All (HasRoomFor key.now.text) (rows_of rows.new)) }
{
    let mut after = None;
    'rows: while let Some(number) = next_met(rows, key, after) {
        reserve_at(rows, number)?;
        after = Some(number);
    }
    Ok(())
}

/// Makes room for one more id in the list of a number, if it is there.
fn reserve_at(rows: &mut Rows<NumberRow>, number: u32) -> Result<(), AllocError>
    requires { AreNumberRows rows.old }
    ensures rows { AreNumberRows rows.new }
    ensures same { ChangesAt shown kept number rows.old rows.new }
    ensures room { OnOk result (IfSome (row_at number rows.new) HasRoom) }
{
    let Some(row) = rows.find_mut(number) else {
        return Ok(());
    };
    reserve_one(row)
}

/// Makes room for one more id in a row's list. Where there is no memory for it, the list is as it was.
fn reserve_one(row: &mut NumberRow) -> Result<(), AllocError>
    ensures same { shown row.new ≡ shown row.old }
    ensures room { OnOk result (HasRoom row.new) }
{
    Ok(row.matches.reserve(1)?)
}

/// Puts a new subscriber at the end of each list whose key has a key in common with its own.
pub(crate) fn note_id(rows: &mut Rows<NumberRow>, id: u32, key: &KeyExpr<'_>)
    requires rows { AreNumberRows rows.old }
    requires room { All (HasRoomFor key.now.text) (rows_of rows.old) }
    ensures rows { AreNumberRows rows.new }
    ensures lists { map shown (rows_of rows.new) ≡ map (noted id key.now.text) (map shown (rows_of rows.old)) }
{
    let mut after = None;
    'rows: while let Some(number) = next_met(rows, key, after) {
        note_at(rows, number, id);
        after = Some(number);
    }
}

/// Puts an id at the end of the list of a number, if it is there.
fn note_at(rows: &mut Rows<NumberRow>, number: u32, id: u32)
    requires rows { AreNumberRows rows.old }
    requires room { IfSome (row_at number rows.old) HasRoom }
    ensures rows { AreNumberRows rows.new }
    ensures list { ChangesAt shown (joined id) number rows.old rows.new }
{
    let Some(row) = rows.find_mut(number) else {
        return;
    };
    note_one(row, id);
}

/// Puts an id at the end of a row's list. There is room for it, so that this can't fail.
fn note_one(row: &mut NumberRow, id: u32)
    requires { HasRoom row.old }
    ensures { shown row.new ≡ joined id (shown row.old) }
{
    let _ = row.matches.push(id);
}

/// Takes a subscriber out of each list.
pub(crate) fn forget_id(rows: &mut Rows<NumberRow>, id: u32)
    requires rows { AreNumberRows rows.old }
    requires lists { All IsAscending (rows_of rows.old) }
    ensures rows { AreNumberRows rows.new }
    ensures lists { map shown (rows_of rows.new) ≡ map (forgotten id) (map shown (rows_of rows.old)) }
{
    let mut after = None;
    'rows: while let Some(number) = next_listing(rows, id, after) {
        forget_at(rows, number, id);
        after = Some(number);
    }
}

/// Takes an id out of the list of a number, if it is there.
fn forget_at(rows: &mut Rows<NumberRow>, number: u32, id: u32)
    requires rows { AreNumberRows rows.old }
    requires list { IfSome (row_at number rows.old) IsAscending }
    ensures rows { AreNumberRows rows.new }
    ensures list { ChangesAt shown (forgotten id) number rows.old rows.new }
{
    let Some(row) = rows.find_mut(number) else {
        return;
    };
    forget_one(row, id);
}

/// Takes an id out of a row's list, if it is there.
fn forget_one(row: &mut NumberRow, id: u32)
    requires { IsAscending row.old }
    ensures { shown row.new ≡ forgotten id (shown row.old) }
{
    leave_out(&mut row.matches, id);
}

/// Takes an id out of an ascending list, if it is there. The others stay in their order.
fn leave_out(ids: &mut Vec<u32>, id: u32)
    requires { Ascend (λ id. id) ids.old.items }
    ensures { ids.new.items ≡ filter (λ other. not (other == id)) ids.old.items }
{
    let Ok(at) = id_place(ids, id) else {
        return;
    };
    ids.remove(at);
}

/// Empties each list.
pub(crate) fn empty_lists(rows: &mut Rows<NumberRow>)
    requires { AreNumberRows rows.old }
    ensures rows { AreNumberRows rows.new }
    ensures lists { map shown (rows_of rows.new) ≡ map emptied (map shown (rows_of rows.old)) }
{
    let mut after = None;
    'rows: while let Some(number) = next_number(rows, after) {
        empty_at(rows, number);
        after = Some(number);
    }
}

/// Empties the list of a number, if it is there.
fn empty_at(rows: &mut Rows<NumberRow>, number: u32)
    requires { AreNumberRows rows.old }
    ensures rows { AreNumberRows rows.new }
    ensures list { ChangesAt shown emptied number rows.old rows.new }
{
    let Some(row) = rows.find_mut(number) else {
        return;
    };
    empty(row);
}

/// Empties a row's list. Its number goes on standing for its key.
fn empty(row: &mut NumberRow)
    ensures { shown row.new ≡ emptied (shown row.old) }
{
    row.matches.clear();
}
