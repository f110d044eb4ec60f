//! Blocks of entries.

ghost use Rattle.std.specs.Prelude.{◌≡◌, ◌<◌, ◌≤◌, ◌++◌, [], ◌∷◌, length, nat_le, IfOk, OnOk, OnErr};
ghost use Rattle.std.specs.List.{insert, remove};

use crate::entry::Entry;
use std::alloc::{AllocError, Global};
use std::marker::Model;

/// How many entries a block takes before it is split.
const FULL: usize = 256;

/// A few entries in their order, so that one more, or one less, moves few others.
#[derive(Drop)]
pub(crate) struct Block {
    entries: Vec<Entry>,
}

impl Model for Block {
    ghost use Rattle.std.specs.Prelude.{List};
    ghost use Rattle.zs_tree.specs.declared.entry.Entry.{Entry};

    ghost Value = { List Entry };

    ghost view = { λ b. b.entries.items };
}

impl Block {
    /// No entry.
    pub(crate) fn new(alloc: Global) -> Block
        ensures { result ≡ [] }
    {
        Block {
            entries: Vec::new(alloc),
        }
    }

    /// One entry.
    pub(crate) fn of(alloc: Global, entry: Entry) -> Result<Block, AllocError>
        ensures { IfOk result (λ block. block ≡ entry ∷ []) }
    {
        let mut entries = Vec::new(alloc);
        entries.push(entry)?;
        Ok(Block { entries })
    }

    /// The entries.
    pub(crate) fn entries(&self) -> &[Entry]
        ensures { result.now ≡ self.now }
    {
        &self.entries
    }

    /// Whether one more would be one too many.
    pub(crate) fn is_full(&self) -> bool
        ensures { result ≡ nat_le 256 (length self.now) }
    {
        self.entries.len() >= FULL
    }

    /// Puts an entry at a place.
    pub(crate) fn insert(&mut self, at: usize, entry: Entry) -> Result<(), AllocError>
        requires { at ≤ length self.old }
        ensures ok { OnOk result (self.new ≡ insert self.old at entry) }
        ensures err { OnErr result (self.new ≡ self.old) }
    {
        Ok(self.entries.insert(at, entry)?)
    }

    /// Takes out the entry at a place.
    pub(crate) fn remove(&mut self, at: usize)
        requires { at < length self.old }
        ensures { self.new ≡ remove self.old at }
    {
        let _ = self.entries.remove(at);
    }

    /// Takes out the second half of two or more entries.
    pub(crate) fn split_off(&mut self) -> Result<Block, AllocError>
        requires { 1 < length self.old }
        ensures parts { IfOk result (λ behind. self.old ≡ self.new ++ behind) }
        ensures some { IfOk result (λ behind. (0 < length self.new) × (0 < length behind)) }
        ensures err { OnErr result (self.new ≡ self.old) }
    {
        let half = self.entries.len() / 2;
        let entries = self.entries.split_off(half)?;
        Ok(Block { entries })
    }
}
