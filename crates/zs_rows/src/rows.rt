//! Rows in ascending number, each found by its number.
ghost use Rattle.std.specs.Prelude.{◌≡◌, ℕ, true, false, ◌==◌, [], ◌∷◌, filter, map, length, is_some, Some, None, OnOk, OnErr, IfOk, MatchOption, IfSome};
ghost use Rattle.std.specs.Option.{option_copied, option_copied_mut, option_map};
ghost use Rattle.std.specs.Map.Iter.{ShowsInOrder, deref_pair};
ghost use Rattle.zs_rows.specs.Ascending.{Ascend};
ghost use Rattle.zs_rows.specs.Rows.{row_at, without_row, with_row, placed_row, Updates, is_behind, first_of};

use crate::behind::start_behind;
use std::alloc::{AllocError, Global};
use std::collections::BTreeMap;
use std::collections::btree_map::{Iter, Range};
use std::marker::Model;
use std::ops::Bound;

/// Rows in ascending number, each under a number of its own. To find, put in or take out a row takes steps in the
/// logarithm of how many there are, and no row moves because another goes.
#[derive(Drop)]
pub struct Rows<R> {
    rows: BTreeMap<u32, R>,
}

impl<R> Model for Rows<R> {
    ghost use Rattle.std.specs.Prelude.{ℕ, List};

    ghost Value = { List (ℕ × R) };

    ghost view = { λ a. a.rows.entries };
}

impl<R> Rows<R> {
    ghost use Rattle.std.specs.Borrow.{LendsSo, sem};
    ghost use Rattle.zs_rows.specs.contracts.rows.Rows.{the_row};

    /// No row. It takes its memory from `alloc`.
    pub fn new(alloc: Global) -> Rows<R>
        ensures { result ≡ [] }
    {
        Rows {
            rows: BTreeMap::new(alloc),
        }
    }

    /// How many rows there are. Their numbers ascend.
    pub fn len(&self) -> usize
        ensures len { result ≡ length self.now }
        ensures ascending { Ascend (λ e. e.0) self.now }
    {
        self.rows.len()
    }

    /// The row of that number.
    pub fn find(&self, number: u32) -> Option<&R>
        ensures { option_copied result ≡ row_at number self.now }
    {
        self.rows.get(&number)
    }

    /// Whether there is a row of that number.
    pub fn has(&self, number: u32) -> bool
        ensures { result ≡ is_some (row_at number self.now) }
    {
        self.find(number).is_some()
    }

    /// The row of the least number above that one, or of the least of all.
    pub fn next_behind(&self, after: Option<u32>) -> Option<(u32, &R)>
        ensures { option_map (λ p. (p.0, p.1.now)) result ≡ first_of (filter (λ e. is_behind after e.0) self.now) }
    {
        match self
            .rows
            .range((start_behind(after), Bound::Unbounded))
            .next()
        {
            Some((number, row)) => Some((*number, row)),
            None => None,
        }
    }

    /// The rows with their numbers, ascending.
    pub fn iter(&self) -> Iter<'_, u32, R>
        ensures rest { result ≡ self.now }
        ensures runs { ShowsInOrder (deref_pair {K = ℕ} {X = R}) }
        ensures ascending { Ascend (λ e. e.0) self.now }
    {
        self.rows.iter()
    }

    /// The rows of the numbers above that one, or all, with their numbers, ascending.
    pub fn iter_behind(&self, after: Option<u32>) -> Range<'_, u32, R>
        ensures rest { result ≡ filter (λ e. is_behind after e.0) self.now }
        ensures runs { ShowsInOrder (deref_pair {K = ℕ} {X = R}) }
    {
        self.rows.range((start_behind(after), Bound::Unbounded))
    }

    /// Lends the row of that number.
    pub fn find_mut(&mut self, number: u32) -> Option<&mut R>
        ensures* writes_back { sem 𝓛 (LendsSo (the_row R.row) R.row self.entry result (λ n w. (n ≡ with_row number w self.old) × (is_some (row_at number self.old) ≡ true → Updates number (Some w) self.old n)) (λ n. n ≡ self.old)) }
        ensures value { option_copied_mut result ≡ row_at number self.old }
        ensures ascending { Ascend (λ e. e.0) self.old }
    {
        self.rows.get_mut(&number)
    }
}

impl<R: Drop> Rows<R> {
    /// Puts in a row under a number that has none.
    ///
    /// # Errors
    ///
    /// Want of memory alone. Then nothing has changed.
    pub fn insert(&mut self, number: u32, row: R) -> Result<(), AllocError>
        requires { is_some (row_at number self.old) ≡ false }
        ensures rows { OnOk result (self.new ≡ placed_row number row self.old) }
        ensures found { OnOk result (Updates number (Some row) self.old self.new) }
        ensures ascending { Ascend (λ e. e.0) self.new }
        ensures err { OnErr result (self.new ≡ self.old) }
    {
        self.rows.insert(number, row)?;
        Ok(())
    }

    /// Takes out the row of that number, if there is one.
    pub fn remove(&mut self, number: u32) -> Option<R>
        ensures row { result ≡ row_at number self.old }
        ensures rows { self.new ≡ without_row number self.old }
        ensures found { Updates number None self.old self.new }
        ensures ascending { Ascend (λ e. e.0) self.new }
    {
        let _in_order = self.rows.len();
        self.rows.remove(&number)
    }

    /// Takes out all rows.
    pub fn clear(&mut self)
        ensures { self.new ≡ [] }
    {
        self.rows.clear();
    }
}
