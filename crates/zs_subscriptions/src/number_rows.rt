//! The declared numbers of a mapping.

ghost use Rattle.std.specs.Prelude.{◌≡◌, ◌==◌, [], true, false, All, map, filter, not, OnOk, OnErr};
ghost use Rattle.std.specs.List.{find, list_any};
ghost use Rattle.std.specs.Option.{option_copied};
ghost use Rattle.zs_subscriptions.specs.Ascending.{Ascend, placed_by};
ghost use Rattle.zs_subscriptions.specs.Lists.{shown, HasRoomFor, IsAscending, noted, forgotten, emptied};

use crate::lists::{empty_lists, forget_id, note_id, reserve_lists};
use crate::number_row::NumberRow;
use std::alloc::{AllocError, Global};
use std::marker::Model;
use zs_keys::KeyExpr;
use zs_rows::Rows;

/// Declared numbers in ascending order. To find, put in or take out one takes steps in the logarithm of how many there
/// are, and none moves because another goes.
#[derive(Drop)]
pub(crate) struct NumberRows {
    rows: Rows<NumberRow>,
}

impl Model for NumberRows {
    ghost use Rattle.std.specs.Prelude.{List};
    ghost use Rattle.zs_rows.specs.Rows.{rows_of};
    ghost use Rattle.zs_subscriptions.specs.declared.number_row.NumberRow.{NumberRow};
    ghost use Rattle.zs_subscriptions.specs.NumberRows.{AreNumberRows};

    ghost Value = { List NumberRow };

    ghost view = { λ n. rows_of n.rows };

    ghost invariant = { λ n. AreNumberRows n.rows };
}

impl NumberRows {
    /// No number.
    pub(crate) fn new(alloc: Global) -> NumberRows
        ensures { result ≡ [] }
    {
        NumberRows {
            rows: Rows::new(alloc),
        }
    }

    /// The row of a number.
    pub(crate) fn find(&self, number: u16) -> Option<&NumberRow>
        ensures row { option_copied result ≡ find (λ row. row.number == number) self.now }
        ensures ascending { Ascend (λ row. row.number) self.now }
    {
        self.rows.find(u32::from(number))
    }

    /// Whether there is a row of that number.
    fn has(&self, number: u16) -> bool
        ensures { result ≡ list_any (λ row. row.number == number) self.now }
    {
        self.rows.has(u32::from(number))
    }

    /// Puts a row where it belongs, in place of one with its number. At an `Err` all is as it was.
    pub(crate) fn place(&mut self, row: NumberRow) -> Result<(), AllocError>
        ensures ok { OnOk result (self.new ≡ placed_by (λ row. row.number) row self.old) }
        ensures err { OnErr result (self.new ≡ self.old) }
    {
        if self.has(row.number) {
            self.write_over(row);
            return Ok(());
        }
        self.insert(row)
    }

    /// Puts a row in the place of the one of its number.
    pub(crate) fn write_over(&mut self, row: NumberRow)
        requires { list_any (λ other. other.number == row.number) self.old ≡ true }
        ensures { self.new ≡ placed_by (λ row. row.number) row self.old }
    {
        let Some(place) = self.rows.find_mut(u32::from(row.number)) else {
            unreachable!()
        };
        *place = row;
    }

    /// Puts a row where it belongs, whose number none has. At an `Err` all is as it was.
    pub(crate) fn insert(&mut self, row: NumberRow) -> Result<(), AllocError>
        requires { list_any (λ other. other.number == row.number) self.old ≡ false }
        ensures ok { OnOk result (self.new ≡ placed_by (λ row. row.number) row self.old) }
        ensures err { OnErr result (self.new ≡ self.old) }
    {
        self.rows.insert(u32::from(row.number), row)?;
        Ok(())
    }

    /// Takes out the row of a number, if there is one.
    pub(crate) fn take(&mut self, number: u16) -> Option<NumberRow>
        ensures row { result ≡ find (λ row. row.number == number) self.old }
        ensures rows { self.new ≡ filter (λ row. not (row.number == number)) self.old }
        ensures was_ascending { Ascend (λ row. row.number) self.old }
    {
        self.rows.remove(u32::from(number))
    }

    /// Takes out the row of a number, and says whether it was there.
    pub(crate) fn remove(&mut self, number: u16) -> bool
        ensures answer { result ≡ list_any (λ row. row.number == number) self.old }
        ensures rows { self.new ≡ filter (λ row. not (row.number == number)) self.old }
    {
        self.take(number).is_some()
    }

    /// Takes out all.
    pub(crate) fn clear(&mut self)
        ensures { self.new ≡ [] }
    {
        self.rows.clear();
    }

    /// Makes room for one more id in each list whose key has a key in common with this one.
    pub(crate) fn reserve(&mut self, key: &KeyExpr<'_>) -> Result<(), AllocError>
        ensures same { map shown self.new ≡ map shown self.old }
        ensures room { OnOk result (All (HasRoomFor key.now.text) self.new) }
    {
        reserve_lists(&mut self.rows, key)
    }

    /// Puts a new subscriber at the end of each list whose key has a key in common with its own.
    pub(crate) fn note(&mut self, id: u32, key: &KeyExpr<'_>)
        requires { All (HasRoomFor key.now.text) self.old }
        ensures { map shown self.new ≡ map (noted id key.now.text) (map shown self.old) }
    {
        note_id(&mut self.rows, id, key);
    }

    /// Takes a subscriber out of each list.
    pub(crate) fn forget(&mut self, id: u32)
        requires { All IsAscending self.old }
        ensures { map shown self.new ≡ map (forgotten id) (map shown self.old) }
    {
        forget_id(&mut self.rows, id);
    }

    /// Empties each list.
    pub(crate) fn empty_lists(&mut self)
        ensures { map shown self.new ≡ map emptied (map shown self.old) }
    {
        empty_lists(&mut self.rows);
    }
}
