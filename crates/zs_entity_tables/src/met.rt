//! The queryables that a request meets.

ghost use Rattle.std.specs.Prelude.{◌≡◌, ◌↔◌, [], IsTrue};

use std::alloc::Global;
use std::marker::Model;

/// The numbers of the queryables that a request meets, ascending.
#[derive(Drop)]
pub struct Met {
    ids: Vec<u32>,
}

impl Model for Met {
    ghost use Rattle.std.specs.Prelude.{ℕ, List};

    ghost Value = { List ℕ };

    ghost view = { λ m. m.ids.items };
}

impl Met {
    /// Nobody.
    pub fn new(alloc: Global) -> Met
        ensures { result ≡ [] }
    {
        Met {
            ids: Vec::new(alloc),
        }
    }

    /// These, in the memory that they have.
    pub fn from_vec(ids: Vec<u32>) -> Met
        ensures { result ≡ ids.items }
    {
        Met { ids }
    }

    /// Whether there is nobody.
    pub fn is_empty(&self) -> bool
        ensures { IsTrue result ↔ (self.now ≡ []) }
    {
        self.ids.is_empty()
    }

    /// All of them, in order.
    pub fn as_slice(&self) -> &[u32]
        ensures { result.now ≡ self.now }
    {
        self.ids.as_slice()
    }
}
