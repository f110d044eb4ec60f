//! Rows in ascending number, with a tree of their keys.

ghost use Rattle.std.specs.Prelude.{◌≡◌, ◌≢◌, ℕ, ◌+◌, ◌<◌, ◌≤◌, false, true, length, ◌==◌, ◌++◌, [], ◌∷◌, All, map, not, filter, nat_lt, is_some, Some, MatchBool, OnOk, OnErr, if◌then◌else◌};
ghost use Rattle.std.specs.List.{find, list_any};
ghost use Rattle.std.specs.Map.Iter.{ShowsInOrder, deref_pair};
ghost use Rattle.std.specs.Option.{option_copied};
ghost use Rattle.zs_keys.specs.Matching.{intersects};
ghost use Rattle.zs_rows.specs.Rows.{row_at, rows_of, first_of, is_behind};
ghost use Rattle.zs_tree.specs.Rows.{first_above, matches as tree_matches};
ghost use Rattle.zs_keyed.specs.Ascending.{Ascend, placed_by, put_new};
ghost use Rattle.zs_keyed.specs.Keyed.{meeting, with_key, with_other_key, IsInTree};

use crate::counted::Counted;
use crate::keyed::Keyed;
use std::alloc::{AllocError, Global};
use std::collections::btree_map::Iter;
use std::marker::{Brand, Model};
use std::sync::ledger::{Blank, Ledger};
use zs_keys::{KeyExpr, Steps};
use zs_rows::Rows;
use zs_tree::KeyTree;

/// Rows in ascending number, with a tree of their keys. To find, put in or take out a row takes steps in the logarithm
/// of how many there are, and no row moves because another goes. No call that answers want of memory has changed
/// anything.
#[derive(Drop)]
pub struct KeyedRows<R: Keyed> {
    rows: Rows<R>,
    tree: KeyTree,
}

impl<R: Keyed> Model for KeyedRows<R> {
    ghost use Rattle.std.specs.Prelude.{List};
    ghost use Rattle.zs_rows.specs.Rows.{rows_of};
    ghost use Rattle.zs_keyed.specs.Keyed.{AreKeyed};

    ghost Value = { List R };

    ghost view = { λ t. rows_of t.rows };

    ghost invariant = { λ t. AreKeyed R.number R.text t.rows t.tree };
}

impl<R: Keyed> KeyedRows<R> {
    /// No rows. It takes its memory from `alloc`.
    pub fn new(alloc: Global) -> KeyedRows<R>
        ensures { result ≡ [] }
    {
        KeyedRows {
            rows: Rows::new(alloc),
            tree: KeyTree::new(alloc),
        }
    }

    /// How many rows there are. Their numbers ascend.
    pub fn len(&self) -> usize
        ensures len { result ≡ length self.now }
        ensures ascending { Ascend R.number self.now }
    {
        self.rows.len()
    }

    /// The rows with their numbers, ascending.
    pub fn iter(&self) -> Iter<'_, u32, R>
        ensures rest { rows_of result ≡ self.now }
        ensures runs { ShowsInOrder (deref_pair {K = ℕ} {X = R}) }
        ensures ascending { Ascend R.number self.now }
    {
        self.rows.iter()
    }

    /// The row of that number.
    pub fn find(&self, number: u32) -> Option<&R>
        ensures { option_copied result ≡ find (λ row. R.number row == number) self.now }
    {
        self.rows.find(number)
    }

    /// Whether there is a row of that number.
    pub fn has(&self, number: u32) -> bool
        ensures { result ≡ list_any (λ row. R.number row == number) self.now }
    {
        self.rows.has(number)
    }

    /// Whether a number is above those of all rows.
    pub fn is_above(&self, number: u32) -> bool
        ensures { MatchBool result (All (λ row. R.number row < number) self.now) (list_any (λ row. not (nat_lt (R.number row) number)) self.now ≡ true) }
    {
        !self.rows.has(number) && !has_behind(&self.rows, number)
    }

    /// Puts a row behind all others.
    ///
    /// # Errors
    ///
    /// Want of memory alone.
    pub fn add(&mut self, row: R) -> Result<(), AllocError>
        requires { All (λ other. R.number other < R.number row) self.old }
        ensures ok { OnOk result (self.new ≡ self.old ++ row ∷ []) }
        ensures err { OnErr result (self.new ≡ self.old) }
    {
        self.insert(row)
    }

    /// Puts a row where it belongs, unless one with its number is there.
    ///
    /// # Errors
    ///
    /// Want of memory alone.
    pub fn put(&mut self, row: R) -> Result<(), AllocError>
        ensures ok { OnOk result (self.new ≡ put_new R.number row self.old) }
        ensures err { OnErr result (self.new ≡ self.old) }
    {
        if self.has(row.number()) {
            return Ok(());
        }
        self.insert(row)
    }

    /// Puts a row where it belongs, in place of one of its number.
    ///
    /// # Errors
    ///
    /// Want of memory alone.
    pub fn place(&mut self, row: R) -> Result<(), AllocError>
        ensures ok { OnOk result (self.new ≡ placed_by R.number row self.old) }
        ensures err { OnErr result (self.new ≡ self.old) }
    {
        if !self.has(row.number()) {
            return self.insert(row);
        }
        self.write_over(row)
    }

    /// Puts a row in the place of the one of its number.
    fn write_over(&mut self, row: R) -> Result<(), AllocError>
        requires { list_any (λ other. R.number other == R.number row) self.old ≡ true }
        ensures ok { OnOk result (self.new ≡ placed_by R.number row self.old) }
        ensures err { OnErr result (self.new ≡ self.old) }
    {
        let number = row.number();
        renew_key(&self.rows, &mut self.tree, &row, number)?;
        let Some(place) = self.rows.find_mut(number) else {
            unreachable!()
        };
        *place = row;
        Ok(())
    }

    /// Puts a row where it belongs, whose number none has.
    fn insert(&mut self, row: R) -> Result<(), AllocError>
        requires { list_any (λ other. R.number other == R.number row) self.old ≡ false }
        ensures ok { OnOk result (self.new ≡ placed_by R.number row self.old) }
        ensures err { OnErr result (self.new ≡ self.old) }
    {
        let number = row.number();
        self.rows.insert(number, row)?;
        if let Err(error) = note_key(&self.rows, &mut self.tree, number) {
            drop(self.rows.remove(number));
            return Err(error);
        }
        Ok(())
    }

    /// Takes a row out, if it is there.
    pub fn take(&mut self, number: u32) -> Option<R>
        ensures answer { result ≡ find (λ row. R.number row == number) self.old }
        ensures rows { self.new ≡ filter (λ row. not (R.number row == number)) self.old }
    {
        let Some(row) = self.rows.remove(number) else {
            return None;
        };
        let _ = self.tree.remove(row.key(), number);
        Some(row)
    }

    /// Takes a row out, and says whether it was there.
    pub fn remove(&mut self, number: u32) -> bool
        ensures answer { result ≡ list_any (λ row. R.number row == number) self.old }
        ensures rows { self.new ≡ filter (λ row. not (R.number row == number)) self.old }
    {
        self.take(number).is_some()
    }

    /// Takes all rows out.
    pub fn clear(&mut self)
        ensures { self.new ≡ [] }
    {
        self.rows.clear();
        self.tree.clear();
    }

    /// Makes a list the ascending numbers of the rows whose key has a key in common with the given one.
    ///
    /// # Errors
    ///
    /// Want of memory alone; the list is as before then.
    pub fn matches_into(&self, key: &KeyExpr<'_>, into: &mut Vec<u32>) -> Result<(), AllocError>
        ensures ok { OnOk result (into.new.items ≡ map R.number (filter (λ row. intersects key.now.text (R.text row)) self.now)) }
        ensures err { OnErr result (into.new.items ≡ into.old.items) }
        ensures ascending { Ascend R.number self.now }
    {
        matches_uncounted::<Brand>(&self.tree, Blank::new(1), key, into)
    }

    /// As `matches_into`, and it counts a step.
    ///
    /// # Errors
    ///
    /// Want of memory alone; the list is as before then.
    pub fn counted_matches_into<L: Ledger>(
        &self,
        key: &KeyExpr<'_>,
        into: &mut Vec<u32>,
        steps: &mut Steps<L>,
    ) -> Result<(), AllocError>
        ensures ok { OnOk result (into.new.items ≡ map R.number (filter (λ row. intersects key.now.text (R.text row)) self.now)) }
        ensures err { OnErr result (into.new.items ≡ into.old.items) }
        ensures ascending { Ascend R.number self.now }
        ensures counted { steps.new ≡ steps.old + 1 }
    {
        self.tree.matches_into(key, into, steps)
    }

    /// The least number above the last one, if there was one, of a row whose key has a key in common with the given
    /// one. It counts a step for each run of equal keys that it finds.
    pub fn least_above<L: Ledger>(
        &self,
        key: &KeyExpr<'_>,
        after: Option<u32>,
        steps: &mut Steps<L>,
    ) -> Option<u32>
        ensures least { result ≡ first_above after (meeting R.number R.text key.now.text self.now) }
        ensures counted { steps.old ≤ steps.new }
    {
        self.tree.least_above(key, after, steps)
    }
}

impl<R: Counted> KeyedRows<R> {
    /// Sets the count of the row of that number, if there is one.
    pub fn set_count(&mut self, number: u32, count: usize)
        ensures { self.new ≡ map (λ row. if R.number row == number then R.counted count row else row) self.old }
    {
        let Some(row) = self.rows.find_mut(number) else {
            return;
        };
        row.set_count(count);
    }
}

/// Whether a row has a number above that one.
fn has_behind<R>(rows: &Rows<R>, number: u32) -> bool
    ensures { result ≡ is_some (first_of (filter (λ e. is_behind (Some number) e.0) rows.now)) }
{
    match rows.next_behind(Some(number)) {
        Some(_) => true,
        None => false,
    }
}

/// Puts the key of the row of a number into the tree, if there is one.
fn note_key<R: Keyed>(rows: &Rows<R>, tree: &mut KeyTree, number: u32) -> Result<(), AllocError>
    requires { All (λ row. row.id ≢ number) tree.old }
    ensures ok { OnOk result (tree.new ≡ with_key R.text number (row_at number rows.now) tree.old) }
    ensures err { OnErr result (tree.new ≡ tree.old) }
{
    match rows.find(number) {
        Some(row) => tree.insert(row.key(), number),
        None => Ok(()),
    }
}

/// Puts the key of a row into the tree, in place of that of the row with its number, if there is one and it is another.
fn renew_key<R: Keyed>(
    rows: &Rows<R>,
    tree: &mut KeyTree,
    new: &R,
    number: u32,
) -> Result<(), AllocError>
    requires { IsInTree R.text number (row_at number rows.now) tree.old }
    ensures ok { OnOk result (tree.new ≡ with_other_key R.text number (row_at number rows.now) new.now tree.old) }
    ensures err { OnErr result (tree.new ≡ tree.old) }
{
    let Some(old) = rows.find(number) else {
        return Ok(());
    };
    if old.key().as_str() == new.key().as_str() {
        return Ok(());
    }
    tree.replace(old.key(), new.key(), number)
}

/// What a key meets in a tree, found with a counter of its own, which nobody reads.
fn matches_uncounted<L: Ledger>(
    tree: &KeyTree,
    blank: Blank,
    key: &KeyExpr<'_>,
    into: &mut Vec<u32>,
) -> Result<(), AllocError>
    requires name { blank.name ≡ L.name }
    requires parts { blank.parts ≡ L.parts }
    requires some { 0 < blank.parts }
    ensures ok { OnOk result (into.new.items ≡ tree_matches key.now.text tree.now) }
    ensures err { OnErr result (into.new.items ≡ into.old.items) }
{
    let mut steps = Steps::<L>::new(blank);
    tree.matches_into(key, into, &mut steps)
}
