//! Sets of entity numbers.

ghost use Rattle.std.specs.Prelude.{◌≡◌, ◌==◌, [], OnOk, OnErr, not, filter};
ghost use Rattle.std.specs.List.{list_any};
ghost use Rattle.zs_subscriptions.specs.Ascending.{placed_by};

use std::alloc::{AllocError, Global};
use std::marker::Model;
use zs_rows::Numbers;

/// Numbers in ascending order, each once.
#[derive(Drop)]
pub struct IdSet {
    ids: Numbers,
}

impl Model for IdSet {
    ghost use Rattle.std.specs.Prelude.{ℕ, List};

    ghost Value = { List ℕ };

    ghost view = { λ s. s.ids };
}

impl IdSet {
    /// No numbers. It takes its memory from `alloc`.
    pub fn new(alloc: Global) -> IdSet
        ensures { result ≡ [] }
    {
        IdSet {
            ids: Numbers::new(alloc),
        }
    }

    /// Puts a number where it belongs, unless it is there.
    pub fn insert(&mut self, id: u32) -> Result<(), AllocError>
        ensures ok { OnOk result (self.new ≡ placed_by (λ n. n) id self.old) }
        ensures err { OnErr result (self.new ≡ self.old) }
    {
        let _was_in_order = self.ids.len();
        self.ids.insert(id)?;
        let _in_order = self.ids.len();
        Ok(())
    }

    /// Takes a number out, if it is there.
    pub fn remove(&mut self, id: u32)
        ensures { self.new ≡ filter (λ n. not (n == id)) self.old }
    {
        self.ids.remove(id);
    }

    /// Takes all numbers out.
    pub fn clear(&mut self)
        ensures { self.new ≡ [] }
    {
        self.ids.clear();
    }

    /// Whether a number is there.
    pub fn contains(&self, id: u32) -> bool
        ensures { result ≡ list_any (λ other. other == id) self.now }
    {
        self.ids.has(id)
    }
}
