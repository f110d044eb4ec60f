//! The tree.

ghost use Rattle.std.specs.Prelude.{◌≡◌, ◌≢◌, ◌≤◌, ◌==◌, ◌+◌, [], true, All, not, filter, OnOk, OnErr};
ghost use Rattle.std.specs.List.{list_any};
ghost use Rattle.zs_tree.specs.Rows.{placed, is_row, matches, first_above};

use crate::block::Block;
use crate::edits::{put_in, take_out};
use crate::entry::Entry;
use crate::least::least_id;
use crate::matching::push_hits;
use std::alloc::{AllocError, Global};
use std::marker::Model;
use std::sync::ledger::Ledger;
use zs_keys::{KeyExpr, Steps};

/// Key expressions, each with a number. A look-up tests the keys that begin like the asked one, and leaves out the
/// others by binary search; it takes no memory but for its answer, and no stack for long keys. The keys lie in blocks of
/// a few hundred, so that one that comes or goes moves no others than those of its block. Contracts see a row for each
/// number, in ascending order.
#[derive(Drop)]
pub struct KeyTree {
    alloc: Global,
    blocks: Vec<Block>,
}

impl Model for KeyTree {
    ghost use Rattle.std.specs.Prelude.{List, map};
    ghost use Rattle.zs_tree.specs.Rows.{Row};
    ghost use Rattle.zs_tree.specs.Blocks.{flat, AreFilled};
    ghost use Rattle.zs_tree.specs.Entries.{row_of, by_number, AreInOrder, AreApart};

    ghost Value = { List Row };

    ghost view = { λ t. by_number (map row_of (flat t.blocks.items)) };

    ghost invariant = { λ t. AreInOrder (flat t.blocks.items) × AreApart (flat t.blocks.items) × AreFilled t.blocks.items };
}

impl KeyTree {
    /// A tree of no keys, which takes its memory from `alloc`.
    pub fn new(alloc: Global) -> KeyTree
        ensures { result ≡ [] }
    {
        KeyTree {
            alloc,
            blocks: Vec::new(alloc),
        }
    }

    /// Puts in a number with its key.
    ///
    /// # Errors
    ///
    /// Want of memory alone.
    pub fn insert(&mut self, key: &KeyExpr<'_>, id: u32) -> Result<(), AllocError>
        requires { All (λ row. row.id ≢ id) self.old }
        ensures ok { OnOk result (self.new ≡ placed (record { id = id; text = key.now.text }) self.old) }
        ensures err { OnErr result (self.new ≡ self.old) }
    {
        let entry = Entry::new(self.alloc, id, key.as_str())?;
        put_in(self.alloc, &mut self.blocks, key.as_str(), entry)
    }

    /// Takes out a number with its key, and says whether the two were there.
    pub fn remove(&mut self, key: &KeyExpr<'_>, id: u32) -> bool
        ensures answer { result ≡ list_any (is_row id key.now.text) self.old }
        ensures rows { self.new ≡ filter (λ row. not (is_row id key.now.text row)) self.old }
    {
        take_out(&mut self.blocks, key.as_str(), id)
    }

    /// Puts another key in the place of the key of a number.
    ///
    /// # Errors
    ///
    /// Want of memory alone; nothing has changed then.
    pub fn replace(
        &mut self,
        old: &KeyExpr<'_>,
        new: &KeyExpr<'_>,
        id: u32,
    ) -> Result<(), AllocError>
        requires there { list_any (is_row id old.now.text) self.old ≡ true }
        requires differ { old.now.text ≢ new.now.text }
        ensures ok { OnOk result (self.new ≡ placed (record { id = id; text = new.now.text }) (filter (λ row. not (is_row id old.now.text row)) self.old)) }
        ensures err { OnErr result (self.new ≡ self.old) }
    {
        let entry = Entry::new(self.alloc, id, new.as_str())?;
        put_in(self.alloc, &mut self.blocks, new.as_str(), entry)?;
        take_out(&mut self.blocks, old.as_str(), id);
        Ok(())
    }

    /// Takes out all.
    pub fn clear(&mut self)
        ensures { self.new ≡ [] }
    {
        self.blocks.clear();
    }

    /// The least number above the last one, if there was one, whose key has a key in common with the given one. It
    /// counts a step for each run of equal keys that it finds.
    pub fn least_above<L: Ledger>(
        &self,
        key: &KeyExpr<'_>,
        after: Option<u32>,
        steps: &mut Steps<L>,
    ) -> Option<u32>
        ensures least { result ≡ first_above after (matches key.now.text self.now) }
        ensures counted { steps.old ≤ steps.new }
    {
        least_id(&self.blocks, key.as_str(), after, steps)
    }

    /// Makes a list the ascending numbers of all keys that have a key in common with the given one. It counts a step.
    ///
    /// # Errors
    ///
    /// Want of memory alone; the list is as before then.
    pub fn matches_into<L: Ledger>(
        &self,
        key: &KeyExpr<'_>,
        into: &mut Vec<u32>,
        steps: &mut Steps<L>,
    ) -> Result<(), AllocError>
        ensures ok { OnOk result (into.new.items ≡ matches key.now.text self.now) }
        ensures err { OnErr result (into.new.items ≡ into.old.items) }
        ensures counted { steps.new ≡ steps.old + 1 }
    {
        steps.tick();
        let held = into.len();
        if let Err(error) = push_hits(&self.blocks, key.as_str(), into) {
            into.truncate(held);
            return Err(error);
        }
        into.rotate_left(held);
        into.truncate(into.len() - held);
        into.sort_unstable();
        Ok(())
    }
}
