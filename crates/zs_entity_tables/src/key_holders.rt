//! Counts of those who hold the numbers that the session declared.

ghost use Rattle.std.specs.Prelude.{◌≡◌, ◌<◌, [], true, OnOk};
ghost use Rattle.zs_entity_tables.specs.DeclaredKeys.{holders_of, has_holder, raised, can_rise, lowered};

use indexmap::IndexMap;
use std::alloc::{AllocError, Global};
use std::marker::Model;

/// How many hold each number. A number that nobody holds any more keeps its place in the map, with a count of 0, so that giving one back
/// moves no others. There are no more of them than numbers.
#[derive(Drop)]
pub struct KeyHolderCounts {
    by_number: IndexMap<u16, u64>,
}

impl Model for KeyHolderCounts {
    ghost use Rattle.std.specs.Prelude.{nat_eq};
    ghost use Rattle.indexmap.specs.IndexMap.{IsUnique, spare};
    ghost use Rattle.zs_entity_tables.specs.HolderCounts.{HolderCounts, held_rows};

    ghost Value = { HolderCounts };

    ghost view = { λ h. record { rows = held_rows h.by_number.entries; room = spare h.by_number } };

    ghost invariant = { λ h. IsUnique nat_eq h.by_number };
}

impl KeyHolderCounts {
    /// Nobody holds a number.
    pub fn new(alloc: Global) -> KeyHolderCounts
        ensures { result.rows ≡ [] }
    {
        KeyHolderCounts {
            by_number: IndexMap::new(alloc),
        }
    }

    /// How many hold a number.
    pub fn of(&self, number: u16) -> u64
        ensures { result ≡ holders_of number self.now.rows }
    {
        self.by_number.get(&number).copied().unwrap_or(0)
    }

    /// Whether anyone holds a number.
    pub fn has(&self, number: u16) -> bool
        ensures { result ≡ has_holder number self.now.rows }
    {
        match self.by_number.get(&number) {
            Some(count) => *count > 0,
            None => false,
        }
    }

    /// Makes room for one holder more of a number. Want of memory stands for a count that can't rise any more, too.
    pub fn prepare(&mut self, number: u16) -> Result<(), AllocError>
        ensures same { self.new.rows ≡ self.old.rows }
        ensures room { OnOk result (0 < self.new.room) }
        ensures count { OnOk result (can_rise number self.new.rows ≡ true) }
    {
        if self.of(number) == u64::MAX {
            return Err(AllocError);
        }
        self.by_number.reserve(1)
    }

    /// Counts one holder more of a number, where there is room for it. A number that nobody held goes last.
    pub fn raise(&mut self, number: u16)
        requires room { 0 < self.old.room }
        requires count { can_rise number self.old.rows ≡ true }
        ensures { self.new.rows ≡ raised number self.old.rows }
    {
        let count = self.of(number);
        if count > 0 {
            let _ = self.by_number.insert(number, count + 1);
            return;
        }
        let _ = self.by_number.shift_remove(&number);
        let _ = self.by_number.insert(number, 1);
    }

    /// Counts one holder less of a number.
    pub fn lower(&mut self, number: u16)
        ensures { self.new.rows ≡ lowered number self.old.rows }
    {
        let Some(count) = self.by_number.get_mut(&number) else {
            return;
        };
        *count = count.saturating_sub(1);
    }

    /// Nobody holds a number any more; the places of those that were given back go too.
    pub fn clear(&mut self)
        ensures { self.new.rows ≡ [] }
    {
        self.by_number.clear();
    }
}
