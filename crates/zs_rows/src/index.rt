//! Numbers under keys: a key may have several, and they are found in ascending order.
ghost use Rattle.std.specs.Prelude.{◌≡◌, ◌<◌, ◌≤◌, ◌||◌, nat_lt, filter, ◌==◌, nat_le, Some, None, if◌then◌else◌, ℕ, [], true, false, length, OnOk, OnErr, IfOk, IfSome, MatchOption};
ghost use Rattle.std.specs.List.{list_any};
ghost use Rattle.zs_rows.specs.Index.{is_marked, is_marked_up_to, under, Notes, Forgets};
ghost use Rattle.zs_rows.specs.Numbers.{is_in};
ghost use Rattle.zs_rows.specs.Ascending.{Ascend};
ghost use Rattle.zs_rows.specs.Rows.{first_of, is_behind};

use crate::mark::Mark;
use crate::numbers::Numbers;
use std::alloc::{AllocError, Global};
use std::collections::BTreeSet;
use std::marker::Model;
use std::ops::Bound;

/// Which numbers stand under which key, ascending by key and then by number. A key is a moment, or a number of another
/// kind. Each call takes steps in the logarithm of how many marks there are, and one for each number that it hands out.
#[derive(Drop)]
pub struct Index {
    marks: BTreeSet<Mark>,
}

impl Model for Index {
    ghost use Rattle.std.specs.Prelude.{List};
    ghost use Rattle.zs_rows.specs.declared.mark.Mark.{Mark};

    ghost Value = { List Mark };

    ghost view = { λ a. a.marks.keys };
}

impl Index {
    /// No mark. It takes its memory from `alloc`.
    pub fn new(alloc: Global) -> Index
        ensures { result ≡ [] }
    {
        Index {
            marks: BTreeSet::new(alloc),
        }
    }

    /// Whether the number stands under the key.
    pub fn has(&self, key: u64, number: u32) -> bool
        ensures { result ≡ is_marked key number self.now }
    {
        self.marks.contains(&Mark { key, number })
    }

    /// Puts the number under the key, if there is one.
    ///
    /// # Errors
    ///
    /// Want of memory alone. Then nothing has changed.
    pub fn note(&mut self, key: Option<u64>, number: u32) -> Result<(), AllocError>
        ensures ok { OnOk result (Notes key number self.old self.new) }
        ensures err { OnErr result (self.new ≡ self.old) }
    {
        let Some(key) = key else {
            return Ok(());
        };
        let _new = self.marks.insert(Mark { key, number })?;
        Ok(())
    }

    /// Takes the number from under the key, if there is one.
    pub fn forget(&mut self, key: Option<u64>, number: u32)
        ensures { Forgets key number self.old self.new }
    {
        let Some(key) = key else {
            return;
        };
        let _was = self.marks.remove(&Mark { key, number });
    }

    /// The least number under the key.
    pub fn first_under(&self, key: u64) -> Option<u32>
        ensures first { result ≡ first_of (under key self.now) }
        ensures found { MatchOption result ((n : ℕ) → is_marked key n self.now ≡ false) (λ n. is_marked key n self.now ≡ true) }
        ensures least { IfSome result (λ n. (m : ℕ) → is_marked key m self.now ≡ true → n ≤ m) }
    {
        match self.marks.range(Mark { key, number: 0 }..).next() {
            Some(mark) => number_if(mark, key),
            None => None,
        }
    }

    /// The least number under the key that is above that one.
    pub fn next_under(&self, key: u64, after: u32) -> Option<u32>
        ensures next { result ≡ first_of (filter (λ n. nat_lt after n) (under key self.now)) }
        ensures found { MatchOption result ((n : ℕ) → after < n → is_marked key n self.now ≡ false) (λ n. (after < n) × (is_marked key n self.now ≡ true)) }
    {
        let last = Mark { key, number: after };
        match self
            .marks
            .range((Bound::Excluded(last), Bound::Unbounded))
            .next()
        {
            Some(mark) => number_if(mark, key),
            None => None,
        }
    }

    /// The least number under the key that is above that one, or the least of all.
    pub fn next_of(&self, key: u64, after: Option<u32>) -> Option<u32>
        ensures next { result ≡ first_of (filter (λ n. is_behind after n) (under key self.now)) }
        ensures ascending { Ascend (λ n. n) (under key self.now) }
    {
        let _in_order = self.marks.len();
        match after {
            Some(after) => self.next_under(key, after),
            None => self.first_under(key),
        }
    }

    /// The first mark, if its key is at most `end`.
    pub fn first_up_to(&self, end: u64) -> Option<Mark>
        ensures { MatchOption result ((n : ℕ) → is_marked_up_to end n self.now ≡ false) (λ m. (m.key ≤ end) × (first_of self.now ≡ Some m)) }
    {
        match self.marks.first() {
            Some(mark) => mark_if(mark, end),
            None => None,
        }
    }

    /// The numbers under the keys up to `end`.
    ///
    /// # Errors
    ///
    /// Want of memory alone.
    pub fn numbers_up_to(&self, alloc: Global, end: u64) -> Result<Numbers, AllocError>
        ensures { IfOk result (λ numbers. (n : ℕ) → is_in n numbers ≡ is_marked_up_to end n self.now) }
    {
        numbers_up_to(alloc, &self.marks, end)
    }

    /// Takes out all marks.
    pub fn clear(&mut self)
        ensures { self.new ≡ [] }
    {
        self.marks.clear();
    }
}

/// The mark's number, if it stands under that key.
fn number_if(mark: &Mark, key: u64) -> Option<u32>
    ensures { result ≡ (if mark.now.key == key then Some mark.now.number else None) }
{
    if mark.key == key {
        Some(mark.number)
    } else {
        None
    }
}

/// The mark, if its key is at most `end`.
fn mark_if(mark: &Mark, end: u64) -> Option<Mark>
    ensures { result ≡ (if nat_le mark.now.key end then Some mark.now else None) }
{
    if mark.key <= end { Some(*mark) } else { None }
}

/// The numbers under the keys up to `end`. Marks ascend by key, so it ends at the first one above.
fn numbers_up_to(alloc: Global, marks: &BTreeSet<Mark>, end: u64) -> Result<Numbers, AllocError>
    ensures { IfOk result (λ numbers. (n : ℕ) → is_in n numbers ≡ is_marked_up_to end n marks.now.keys) }
{
    let mut numbers = Numbers::new(alloc);
    for mark in marks {
        if mark.key > end {
            return Ok(numbers);
        }
        numbers.insert(mark.number)?;
    }
    Ok(numbers)
}
