//! Rows and marks under numbers that follow one another: all of them come, or none.

ghost use Rattle.std.specs.Prelude.{◌≡◌, true, Some, ◌+◌, ◌<◌, ◌≤◌, ℕ, false, not, length, filter, is_some, OnOk, OnErr};
ghost use Rattle.zs_rows.specs.Ascending.{Ascend, placed};
ghost use Rattle.zs_rows.specs.Index.{is_marked, IsSame, NotesFrom, ForgetsFrom};
ghost use Rattle.zs_rows.specs.Rows.{row_at, from_number, is_between, AreFree};

use crate::index::Index;
use crate::rows::Rows;
use std::alloc::AllocError;

impl<R: Drop> Rows<R> {
    /// Puts in rows under the numbers from `first` on, which have none.
    ///
    /// # Errors
    ///
    /// Want of memory alone. Then nothing has changed.
    pub fn insert_all(&mut self, first: u32, more: Vec<R>) -> Result<(), AllocError>
        requires fits { first + length more.items ≤ 4294967295 }
        requires unused { (q : ℕ) → first ≤ q → q < first + length more.items → is_some (row_at q self.old) ≡ false }
        ensures ok { OnOk result (self.new ≡ placed (λ e. e.0) first (from_number first more.items) self.old) }
        ensures err { OnErr result (self.new ≡ self.old) }
        ensures ascending { Ascend (λ e. e.0) self.new }
        ensures free { AreFree first (first + length more.items) self.old }
        ensures was_ascending { Ascend (λ e. e.0) self.old }
    {
        let mut number = first;
        let _in_order = self.len();
        let mut left = more.into_iter();
        'rows: while let Some(row) = left.next() {
            if let Err(error) = self.insert(number, row) {
                self.remove_all(first, number);
                return Err(error);
            }
            number += 1;
        }
        Ok(())
    }

    /// Takes out the rows of the numbers from `first` on that are below `end`.
    pub fn remove_all(&mut self, first: u32, end: u32)
        requires { first ≤ end }
        ensures { self.new ≡ filter (λ e. not (is_between first end e.0)) self.old }
    {
        let mut number = first;
        'numbers: while number < end {
            drop(self.remove(number));
            number += 1;
        }
    }
}

impl Index {
    /// Puts the numbers from `first` on that are below `end` under a key that has none.
    ///
    /// # Errors
    ///
    /// Want of memory alone. Then the marks are as they were.
    pub fn note_all(&mut self, key: u64, first: u32, end: u32) -> Result<(), AllocError>
        requires forward { first ≤ end }
        requires unused { (n : ℕ) → is_marked key n self.old ≡ false }
        ensures ok { OnOk result (NotesFrom key first end self.old self.new) }
        ensures err { OnErr result (IsSame self.old self.new) }
    {
        let mut number = first;
        'numbers: while number < end {
            if let Err(error) = self.note(Some(key), number) {
                self.forget_all(key, first, number);
                return Err(error);
            }
            number += 1;
        }
        Ok(())
    }

    /// Takes the numbers from `first` on that are below `end` from under a key.
    pub fn forget_all(&mut self, key: u64, first: u32, end: u32)
        requires { first ≤ end }
        ensures { ForgetsFrom key first end self.old self.new }
    {
        let mut number = first;
        'numbers: while number < end {
            self.forget(Some(key), number);
            number += 1;
        }
    }
}
