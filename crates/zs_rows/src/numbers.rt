//! Sets of numbers in ascending order.
ghost use Rattle.std.specs.Prelude.{◌≡◌, ℕ, ◌==◌, ◌&&◌, ◌||◌, [], not, length, filter, OnOk, OnErr, IfOk};
ghost use Rattle.std.specs.Map.Iter.{ShowsInOrder, deref};
ghost use Rattle.zs_rows.specs.Ascending.{Ascend};
ghost use Rattle.zs_rows.specs.Numbers.{is_in};
ghost use Rattle.zs_rows.specs.Rows.{is_behind, first_of};

use crate::behind::start_behind;
use std::alloc::{AllocError, Global};
use std::collections::BTreeSet;
use std::collections::btree_set::Iter;
use std::marker::Model;
use std::ops::Bound;

/// A set of numbers, ascending. Each call takes steps in the logarithm of how many there are.
#[derive(Drop)]
pub struct Numbers {
    numbers: BTreeSet<u32>,
}

impl Model for Numbers {
    ghost use Rattle.std.specs.Prelude.{ℕ, List};

    ghost Value = { List ℕ };

    ghost view = { λ a. a.numbers.keys };
}

impl Numbers {
    /// No number. It takes its memory from `alloc`.
    pub fn new(alloc: Global) -> Numbers
        ensures { result ≡ [] }
    {
        Numbers {
            numbers: BTreeSet::new(alloc),
        }
    }

    /// How many there are. They ascend.
    pub fn len(&self) -> usize
        ensures len { result ≡ length self.now }
        ensures ascending { Ascend (λ n. n) self.now }
    {
        self.numbers.len()
    }

    /// Whether the number is one of them.
    pub fn has(&self, number: u32) -> bool
        ensures { result ≡ is_in number self.now }
    {
        self.numbers.contains(&number)
    }

    /// The numbers, ascending.
    pub fn iter(&self) -> Iter<'_, u32>
        ensures rest { result ≡ self.now }
        ensures runs { ShowsInOrder (deref {X = ℕ}) }
        ensures ascending { Ascend (λ n. n) self.now }
    {
        self.numbers.iter()
    }

    /// Puts the number in, and says whether it is new.
    ///
    /// # Errors
    ///
    /// Want of memory alone. Then nothing has changed.
    pub fn insert(&mut self, number: u32) -> Result<bool, AllocError>
        ensures answer { IfOk result (λ new. new ≡ not (is_in number self.old)) }
        ensures ok { OnOk result ((n : ℕ) → is_in n self.new ≡ ((n == number) || is_in n self.old)) }
        ensures err { OnErr result (self.new ≡ self.old) }
    {
        let new = self.numbers.insert(number)?;
        Ok(new)
    }

    /// Takes the number out, and says whether it was there.
    pub fn remove(&mut self, number: u32) -> bool
        ensures answer { result ≡ is_in number self.old }
        ensures numbers { self.new ≡ filter (λ n. not (n == number)) self.old }
    {
        let _in_order = self.numbers.len();
        self.numbers.remove(&number)
    }

    /// The least number above that one, or the least of all.
    pub fn next_behind(&self, after: Option<u32>) -> Option<u32>
        ensures { result ≡ first_of (filter (λ n. is_behind after n) self.now) }
    {
        match self
            .numbers
            .range((start_behind(after), Bound::Unbounded))
            .next()
        {
            Some(number) => Some(*number),
            None => None,
        }
    }

    /// Takes out all numbers.
    pub fn clear(&mut self)
        ensures { self.new ≡ [] }
    {
        self.numbers.clear();
    }
}
