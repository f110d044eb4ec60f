//! The table of this session's live queryables, and which of them answer for a key.
ghost use Rattle.std.specs.Prelude.{◌≡◌, ℕ, ◌<◌, ◌==◌, ◌++◌, [], ◌∷◌, true, All, MatchBool, nat_lt, length, map, not, filter, OnOk, OnErr};
ghost use Rattle.std.specs.List.{find, list_any};
ghost use Rattle.std.specs.Map.Iter.{ShowsInOrder, deref_pair};
ghost use Rattle.std.specs.Option.{option_copied};
ghost use Rattle.zs_subscriptions.specs.Ascending.{Ascend};
ghost use Rattle.zs_keyed.specs.Keyed.{passes_by};
ghost use Rattle.zs_tables.specs.Queryables.{met, is_for, answers_for, answers_whole};

use crate::queryable::QueryableRow;
use std::alloc::{AllocError, Global};
use std::collections::btree_map::Iter;
use std::marker::Model;
use zs_keyed::KeyedRows;
use zs_keys::KeyExpr;
use zs_subscriptions::takes;

/// The live queryables in ascending id, with a tree of their keys that finds those which a request meets. No call that
/// answers want of memory has changed anything.
#[derive(Drop)]
pub struct QueryableTable {
    rows: KeyedRows<QueryableRow>,
}

impl Model for QueryableTable {
    ghost use Rattle.std.specs.Prelude.{List};
    ghost use Rattle.zs_tables.specs.declared.queryable.QueryableRow.{QueryableRow};

    ghost Value = { List QueryableRow };

    ghost view = { λ t. t.rows };
}

impl QueryableTable {
    /// No queryables. It takes its memory from `alloc`.
    pub fn new(alloc: Global) -> QueryableTable
        ensures { result ≡ [] }
    {
        QueryableTable {
            rows: KeyedRows::new(alloc),
        }
    }

    /// Puts a queryable behind all others.
    ///
    /// # Errors
    ///
    /// Want of memory alone.
    pub fn add(&mut self, row: QueryableRow) -> Result<(), AllocError>
        requires { All (λ other. other.id < row.id) self.old }
        ensures ok { OnOk result (self.new ≡ self.old ++ row ∷ []) }
        ensures err { OnErr result (self.new ≡ self.old) }
    {
        self.rows.add(row)
    }

    /// Takes a queryable out, and says whether it was there.
    pub fn remove(&mut self, id: u32) -> bool
        ensures answer { result ≡ list_any (λ row. row.id == id) self.old }
        ensures rows { self.new ≡ filter (λ row. not (row.id == id)) self.old }
    {
        self.rows.remove(id)
    }

    /// Takes all out.
    pub fn clear(&mut self)
        ensures { self.new ≡ [] }
    {
        self.rows.clear();
    }

    /// Whether an id is above those of all queryables.
    pub fn is_above(&self, id: u32) -> bool
        ensures { MatchBool result (All (λ row. row.id < id) self.now) (list_any (λ row. not (nat_lt row.id id)) self.now ≡ true) }
    {
        self.rows.is_above(id)
    }

    /// How many queryables there are. Their ids ascend.
    pub fn len(&self) -> usize
        ensures len { result ≡ length self.now }
        ensures ascending { Ascend (λ row. row.id) self.now }
    {
        self.rows.len()
    }

    /// The queryables with their ids, ascending.
    pub fn iter(&self) -> Iter<'_, u32, QueryableRow>
        ensures rest { map (λ e. e.1) result ≡ self.now }
        ensures runs { ShowsInOrder (deref_pair {K = ℕ} {X = QueryableRow}) }
    {
        self.rows.iter()
    }

    /// The queryable of that id, if there is one.
    pub fn find(&self, id: u32) -> Option<&QueryableRow>
        ensures { option_copied result ≡ find (λ row. row.id == id) self.now }
    {
        self.rows.find(id)
    }

    /// Whether there is a queryable of that id.
    pub fn has(&self, id: u32) -> bool
        ensures { result ≡ list_any (λ row. row.id == id) self.now }
    {
        self.rows.has(id)
    }

    /// Makes a list the ascending ids of the queryables that a request on that key meets. `local` says that the request
    /// is of this session, and `complete` that it wants complete ones alone.
    ///
    /// # Errors
    ///
    /// Want of memory alone; the list is as before then.
    pub fn met_into(
        &self,
        key: &KeyExpr<'_>,
        local: bool,
        complete: bool,
        into: &mut Vec<u32>,
    ) -> Result<(), AllocError>
        ensures ok { OnOk result (into.new.items ≡ met local complete key.now.text self.now) }
        ensures err { OnErr result (into.new.items ≡ into.old.items) }
    {
        self.rows.matches_into(key, into)?;
        keep_met(local, complete, &self.rows, into);
        Ok(())
    }

    /// Makes a list the ascending ids of the queryables, of any origin, that answer for that key: those whose own has a
    /// key in common with it, or, where complete ones alone are wanted, the complete ones whose own includes it.
    ///
    /// # Errors
    ///
    /// Want of memory alone; the list is as before then.
    pub fn answering_into(
        &self,
        key: &KeyExpr<'_>,
        complete: bool,
        into: &mut Vec<u32>,
    ) -> Result<(), AllocError>
        ensures ok { OnOk result (into.new.items ≡ map (λ q. q.id) (filter (answers_for complete key.now.text) self.now)) }
        ensures err { OnErr result (into.new.items ≡ into.old.items) }
    {
        if !complete {
            return self.rows.matches_into(key, into);
        }
        self.rows.matches_into(key, into)?;
        keep_complete(key, &self.rows, into);
        Ok(())
    }
}

/// Leaves those ids out of a list whose queryables aren't complete, or don't include that key.
fn keep_complete(key: &KeyExpr<'_>, rows: &KeyedRows<QueryableRow>, ids: &mut Vec<u32>)
    requires { Ascend (λ row. row.id) rows.now }
    ensures { ids.new.items ≡ filter (passes_by (λ row. row.id) (answers_whole key.now.text) rows.now) ids.old.items }
{
    ids.retain(|id| is_whole(key, rows, *id));
}

/// Whether the queryable of that id is complete and includes that key.
fn is_whole(key: &KeyExpr<'_>, rows: &KeyedRows<QueryableRow>, id: u32) -> bool
    requires { Ascend (λ row. row.id) rows.now }
    ensures { result ≡ passes_by (λ row. row.id) (answers_whole key.now.text) rows.now id }
{
    let Some(row) = rows.find(id) else {
        return false;
    };
    answers_whole(key, row)
}

/// Whether a queryable is complete and includes that key.
fn answers_whole(key: &KeyExpr<'_>, row: &QueryableRow) -> bool
    ensures { result ≡ answers_whole key.now.text row.now }
{
    row.complete && row.key.includes(key)
}

/// Leaves those ids out of a list whose queryables don't take such a request.
fn keep_met(local: bool, complete: bool, rows: &KeyedRows<QueryableRow>, ids: &mut Vec<u32>)
    requires { Ascend (λ row. row.id) rows.now }
    ensures { ids.new.items ≡ filter (passes_by (λ row. row.id) (is_for local complete) rows.now) ids.old.items }
{
    ids.retain(|id| is_met(local, complete, rows, *id));
}

/// Whether the queryable of that id takes such a request.
fn is_met(local: bool, complete: bool, rows: &KeyedRows<QueryableRow>, id: u32) -> bool
    requires { Ascend (λ row. row.id) rows.now }
    ensures { result ≡ passes_by (λ row. row.id) (is_for local complete) rows.now id }
{
    let Some(row) = rows.find(id) else {
        return false;
    };
    is_for(local, complete, row)
}

/// Whether a queryable takes such a request, whatever its key.
fn is_for(local: bool, complete: bool, row: &QueryableRow) -> bool
    ensures { result ≡ is_for local complete row.now }
{
    takes(local, row.origin) && (row.complete || !complete)
}
