//! Live entities by their numbers.

ghost use Rattle.std.specs.Prelude.{◌≡◌, ◌<◌, ◌==◌, ◌++◌, [], ◌∷◌, All, not, filter, OnOk, OnErr};
ghost use Rattle.std.specs.List.{find, list_any};
ghost use Rattle.std.specs.Option.{option_copied};

use crate::entity::Entity;
use std::alloc::{AllocError, Global};
use std::marker::Model;
use zs_rows::Rows;

/// The live entities of a kind in ascending number. One is found, put in or taken out in steps that go with the logarithm
/// of how many there are.
#[derive(Drop)]
pub struct EntityTable<R: Entity> {
    rows: Rows<R>,
}

impl<R: Entity> Model for EntityTable<R> {
    ghost use Rattle.std.specs.Prelude.{List};
    ghost use Rattle.zs_rows.specs.Rows.{rows_of};
    ghost use Rattle.zs_entity_tables.specs.EntityRows.{AreEntities};

    ghost Value = { List R };

    ghost view = { λ t. rows_of t.rows };

    ghost invariant = { λ t. AreEntities (λ row. (R.shared row).id) t.rows };
}

impl<R: Entity> EntityTable<R> {
    /// No entities. It takes its memory from `alloc`.
    pub fn new(alloc: Global) -> EntityTable<R>
        ensures { result ≡ [] }
    {
        EntityTable {
            rows: Rows::new(alloc),
        }
    }

    /// Puts an entity behind all others.
    pub fn add(&mut self, row: R) -> Result<(), AllocError>
        requires { All (λ other. (R.shared other).id < (R.shared row).id) self.old }
        ensures ok { OnOk result (self.new ≡ self.old ++ row ∷ []) }
        ensures err { OnErr result (self.new ≡ self.old) }
    {
        let id = row.id();
        self.rows.insert(id, row)?;
        Ok(())
    }

    /// Takes an entity out, if it is there.
    pub fn remove(&mut self, id: u32)
        ensures { self.new ≡ filter (λ row. not ((R.shared row).id == id)) self.old }
    {
        drop(self.rows.remove(id));
    }

    /// Takes all entities out.
    pub fn clear(&mut self)
        ensures { self.new ≡ [] }
    {
        self.rows.clear();
    }

    /// Whether there is an entity of that number.
    pub fn has(&self, id: u32) -> bool
        ensures { result ≡ list_any (λ row. (R.shared row).id == id) self.now }
    {
        self.rows.has(id)
    }

    /// The entity of that number, if there is one.
    pub fn get(&self, id: u32) -> Option<&R>
        ensures { option_copied result ≡ find (λ row. (R.shared row).id == id) self.now }
    {
        self.rows.find(id)
    }
}
