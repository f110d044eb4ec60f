//! The rows of groups, found by their texts.

ghost use Rattle.std.specs.Prelude.{◌≡◌, ◌==◌, false, not, IfOk, OnOk, OnErr, length, option_map, [], ◌∷◌};
ghost use Rattle.std.specs.List.{list_any, list_all};
ghost use Rattle.zs_grouped.specs.Groups.{has_text, number_of_group, members_of, joined, left, number_left};
ghost use Rattle.zs_grouped.specs.Grouped.{groups_in, HasJoined, HasLeft, IsSame, AreGroups};

use crate::group_row::GroupRow;
use std::alloc::{AllocError, Global};
use std::collections::{BTreeMap, BTreeSet};

/// Groups by the texts that their members share.
pub(crate) type GroupRows = BTreeMap<String, GroupRow>;

/// The number of the group of a text, if there is one.
pub(crate) fn number_in(rows: &GroupRows, text: &str) -> Option<u32>
    ensures { result ≡ number_of_group text.now (groups_in rows.now) }
{
    match rows.get(text) {
        Some(row) => Some(row.number),
        None => None,
    }
}

/// How many members the group of a text has.
pub(crate) fn members_in(rows: &GroupRows, text: &str) -> usize
    ensures { result ≡ length (members_of text.now (groups_in rows.now)) }
{
    match rows.get(text) {
        Some(row) => row.members.len(),
        None => 0,
    }
}

/// Puts a member into the group of a text, and says whether it is the first.
pub(crate) fn join_in(
    alloc: Global,
    rows: &mut GroupRows,
    text: &str,
    id: u32,
) -> Result<bool, AllocError>
    requires { AreGroups rows.old.entries }
    ensures first { IfOk result (λ first. first ≡ not (list_any (has_text text.now) (groups_in rows.old))) }
    ensures ok { OnOk result (groups_in rows.new ≡ joined text.now id (groups_in rows.old)) }
    ensures err { OnErr result (groups_in rows.new ≡ groups_in rows.old) }
    ensures members { AreGroups rows.new.entries }
{
    let _in_order = rows.len();
    if let Some(row) = rows.get_mut(text) {
        return push_member(row, id);
    }
    let row = new_row(alloc, id)?;
    let key = String::from_str(alloc, text)?;
    rows.insert(key, row)?;
    Ok(true)
}

/// A row of one member.
fn new_row(alloc: Global, id: u32) -> Result<GroupRow, AllocError>
    ensures number { IfOk result (λ row. row.number ≡ id) }
    ensures members { IfOk result (λ row. row.members.keys ≡ id ∷ []) }
{
    let mut members = BTreeSet::new(alloc);
    members.insert(id)?;
    Ok(GroupRow {
        number: id,
        members,
    })
}

/// Takes a member out of the group of a text, and gives the group's number where it was the last.
pub(crate) fn leave_in(rows: &mut GroupRows, text: &str, id: u32) -> Option<u32>
    requires { AreGroups rows.old.entries }
    ensures last { result ≡ number_left text.now id (groups_in rows.old) }
    ensures rows { groups_in rows.new ≡ left text.now id (groups_in rows.old) }
    ensures members { AreGroups rows.new.entries }
{
    let _in_order = rows.len();
    let Some(row) = rows.get(text) else {
        return None;
    };
    if is_alone(row, id) {
        return number_of(rows.remove(text));
    }
    let Some(row) = rows.get_mut(text) else {
        unreachable!()
    };
    leave_row(row, id);
    None
}

/// Puts a member into a row that has some, and so not as the first.
fn push_member(row: &mut GroupRow, id: u32) -> Result<bool, AllocError>
    ensures first { IfOk result (λ first. first ≡ false) }
    ensures ok { OnOk result (HasJoined id row.old row.new) }
    ensures err { OnErr result (IsSame row.old row.new) }
{
    row.members.insert(id)?;
    Ok(false)
}

/// Whether a group has no other member.
fn is_alone(row: &GroupRow, id: u32) -> bool
    ensures { result ≡ list_all (λ member. member == id) row.now.members.keys }
{
    row.members.iter().all(|member| *member == id)
}

/// Takes a member out of a row, if it is in it. The row keeps its number, also where the one that gave it leaves.
fn leave_row(row: &mut GroupRow, id: u32)
    ensures { HasLeft id row.old row.new }
{
    let _in_order = row.members.len();
    row.members.remove(&id);
}

/// The number of a row, if there is one.
fn number_of(row: Option<GroupRow>) -> Option<u32>
    ensures { result ≡ option_map (λ row. row.number) row }
{
    match row {
        Some(row) => Some(row.number),
        None => None,
    }
}
