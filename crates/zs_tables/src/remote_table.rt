//! The table of the subscribers and queryables that the other side declared.
ghost use Rattle.std.specs.Prelude.{◌≡◌, ◌==◌, [], length, map, not, filter, OnOk, OnErr};
ghost use Rattle.std.specs.List.{find, list_any};
ghost use Rattle.std.specs.Option.{option_copied};
ghost use Rattle.zs_keys.specs.Matching.{intersects};
ghost use Rattle.zs_subscriptions.specs.Ascending.{Ascend, placed_by};
ghost use Rattle.zs_keyed.specs.Keyed.{passes_by};
ghost use Rattle.zs_tables.specs.RemoteEntities.{answers, is_whole};

use crate::remote_row::{RemoteQueryable, RemoteSubscriber};
use std::alloc::{AllocError, Global};
use std::marker::Model;
use zs_keyed::KeyedRows;
use zs_keys::KeyExpr;

/// The subscribers and the queryables that the other side declared, each in ascending number, with trees of their keys.
/// Of a number the last declaration counts. No call that answers want of memory has changed anything.
#[derive(Drop)]
pub struct RemoteTable {
    subs: KeyedRows<RemoteSubscriber>,
    queryables: KeyedRows<RemoteQueryable>,
}

impl Model for RemoteTable {
    ghost use Rattle.zs_tables.specs.RemoteEntities.{RemoteEntities};

    ghost Value = { RemoteEntities };

    ghost view = { λ t. record { subs = t.subs; queryables = t.queryables } };
}

impl RemoteTable {
    /// Nothing was declared. It takes its memory from `alloc`.
    pub fn new(alloc: Global) -> RemoteTable
        ensures { result ≡ record { subs = []; queryables = [] } }
    {
        RemoteTable {
            subs: KeyedRows::new(alloc),
            queryables: KeyedRows::new(alloc),
        }
    }

    /// Records a subscriber, in place of one of its number.
    ///
    /// # Errors
    ///
    /// Want of memory alone.
    pub fn set_sub(&mut self, row: RemoteSubscriber) -> Result<(), AllocError>
        ensures ok { OnOk result (self.new ≡ record self.old { subs = placed_by (λ row. row.number) row self.old.subs }) }
        ensures err { OnErr result (self.new ≡ self.old) }
    {
        self.subs.place(row)?;
        Ok(())
    }

    /// Records a queryable, in place of one of its number.
    ///
    /// # Errors
    ///
    /// Want of memory alone.
    pub fn set_queryable(&mut self, row: RemoteQueryable) -> Result<(), AllocError>
        ensures ok { OnOk result (self.new ≡ record self.old { queryables = placed_by (λ row. row.number) row self.old.queryables }) }
        ensures err { OnErr result (self.new ≡ self.old) }
    {
        self.queryables.place(row)?;
        Ok(())
    }

    /// Forgets a subscriber, and says whether its number was known.
    pub fn unset_sub(&mut self, number: u32) -> bool
        ensures answer { result ≡ list_any (λ row. row.number == number) self.old.subs }
        ensures rows { self.new ≡ record self.old { subs = filter (λ row. not (row.number == number)) self.old.subs } }
    {
        self.subs.remove(number)
    }

    /// Forgets a queryable, and says whether its number was known.
    pub fn unset_queryable(&mut self, number: u32) -> bool
        ensures answer { result ≡ list_any (λ row. row.number == number) self.old.queryables }
        ensures rows { self.new ≡ record self.old { queryables = filter (λ row. not (row.number == number)) self.old.queryables } }
    {
        self.queryables.remove(number)
    }

    /// The subscriber of that number, if it is known.
    pub fn find_sub(&self, number: u32) -> Option<&RemoteSubscriber>
        ensures { option_copied result ≡ find (λ row. row.number == number) self.now.subs }
    {
        self.subs.find(number)
    }

    /// The queryable of that number, if it is known.
    pub fn find_queryable(&self, number: u32) -> Option<&RemoteQueryable>
        ensures { option_copied result ≡ find (λ row. row.number == number) self.now.queryables }
    {
        self.queryables.find(number)
    }

    /// How many subscribers are known. Their numbers ascend.
    pub fn sub_count(&self) -> usize
        ensures len { result ≡ length self.now.subs }
        ensures ascending { Ascend (λ row. row.number) self.now.subs }
    {
        self.subs.len()
    }

    /// How many queryables are known. Their numbers ascend.
    pub fn queryable_count(&self) -> usize
        ensures len { result ≡ length self.now.queryables }
        ensures ascending { Ascend (λ row. row.number) self.now.queryables }
    {
        self.queryables.len()
    }

    /// Whether a subscriber of that number is known.
    pub fn has_sub(&self, number: u32) -> bool
        ensures { result ≡ list_any (λ row. row.number == number) self.now.subs }
    {
        self.subs.has(number)
    }

    /// Whether a queryable of that number is known.
    pub fn has_queryable(&self, number: u32) -> bool
        ensures { result ≡ list_any (λ row. row.number == number) self.now.queryables }
    {
        self.queryables.has(number)
    }

    /// Makes a list the ascending numbers of the subscribers whose key has a key in common with that one.
    ///
    /// # Errors
    ///
    /// Want of memory alone; the list is as before then.
    pub fn subs_into(&self, key: &KeyExpr<'_>, into: &mut Vec<u32>) -> Result<(), AllocError>
        ensures ok { OnOk result (into.new.items ≡ map (λ row. row.number) (filter (λ row. intersects key.now.text row.key.text) self.now.subs)) }
        ensures err { OnErr result (into.new.items ≡ into.old.items) }
    {
        self.subs.matches_into(key, into)
    }

    /// Makes a list the ascending numbers of the queryables that answer for that key: those whose own has a key in common
    /// with it, or, where complete ones alone are wanted, the complete ones whose own includes it.
    ///
    /// # Errors
    ///
    /// Want of memory alone; the list is as before then.
    pub fn answering_into(
        &self,
        key: &KeyExpr<'_>,
        complete: bool,
        into: &mut Vec<u32>,
    ) -> Result<(), AllocError>
        ensures ok { OnOk result (into.new.items ≡ map (λ row. row.number) (filter (answers complete key.now.text) self.now.queryables)) }
        ensures err { OnErr result (into.new.items ≡ into.old.items) }
    {
        if !complete {
            return self.queryables.matches_into(key, into);
        }
        self.queryables.matches_into(key, into)?;
        keep_complete(key, &self.queryables, into);
        Ok(())
    }
}

/// Leaves those numbers out of a list whose queryables aren't complete, or don't include that key.
fn keep_complete(key: &KeyExpr<'_>, rows: &KeyedRows<RemoteQueryable>, numbers: &mut Vec<u32>)
    requires { Ascend (λ row. row.number) rows.now }
    ensures { numbers.new.items ≡ filter (passes_by (λ row. row.number) (is_whole key.now.text) rows.now) numbers.old.items }
{
    numbers.retain(|number| is_complete(key, rows, *number));
}

/// Whether the queryable of that number is complete and includes that key.
fn is_complete(key: &KeyExpr<'_>, rows: &KeyedRows<RemoteQueryable>, number: u32) -> bool
    requires { Ascend (λ row. row.number) rows.now }
    ensures { result ≡ passes_by (λ row. row.number) (is_whole key.now.text) rows.now number }
{
    let Some(row) = rows.find(number) else {
        return false;
    };
    is_whole(key, row)
}

/// Whether a queryable is complete and includes that key.
fn is_whole(key: &KeyExpr<'_>, row: &RemoteQueryable) -> bool
    ensures { result ≡ is_whole key.now.text row.now }
{
    row.complete && row.key.includes(key)
}
