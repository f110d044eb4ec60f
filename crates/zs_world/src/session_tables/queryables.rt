//! Changes of the queryables.

ghost use Rattle.std.specs.Prelude.{◌≡◌, ◌==◌, Some, None, OnOk, OnErr};
ghost use Rattle.std.specs.List.{list_any};
ghost use Rattle.zs_world.specs.Changes.{with_change};
ghost use Rattle.zs_world.specs.EntityChanges.{EntitiesFit};

use super::SessionTables;
use crate::change::{Change, EntityChange, EntityRow};
use std::alloc::AllocError;
use zs_entity_tables::{own_queryable_of, recounts_of};
use zs_events::EntityKind;
use zs_tables::{Candidate, QueryableRow};

impl SessionTables {
    /// Whether there is a queryable of that number.
    pub fn has_queryable(&self, id: u32) -> bool
        ensures { result ≡ list_any (λ row. row.id == id) self.now.entities.queryables }
    {
        self.queryables.has(id)
    }

    /// A queryable with the next number is live.
    pub(super) fn add_queryable(&mut self, row: QueryableRow) -> Result<(), AllocError>
        requires { EntitiesFit self.old.counters.entity (EntityChange.Add (EntityRow.Queryable row)) }
        ensures ok { OnOk result (self.new ≡ with_change (Change.OfEntities (EntityChange.Add (EntityRow.Queryable row))) self.old) }
        ensures err { OnErr result (self.new ≡ self.old) }
    {
        let comes = Some(Candidate::own_queryable(&row));
        let recounts = recounts_of(self.matching.listeners(), None, comes)?;
        self.queryables.add(row)?;
        self.matching.recount(&recounts);
        self.next_entity += 1;
        Ok(())
    }

    /// A queryable ends, and the listeners that it matched count it no more.
    pub(super) fn end_queryable(&mut self, id: u32) -> Result<(), AllocError>
        ensures ok { OnOk result (self.new ≡ with_change (Change.OfEntities (EntityChange.End EntityKind.Queryable id)) self.old) }
        ensures err { OnErr result (self.new ≡ self.old) }
    {
        let _ascending = self.queryables.len();
        let goes = own_queryable_of(&self.queryables, id);
        let recounts = recounts_of(self.matching.listeners(), goes, None)?;
        self.queryables.remove(id);
        self.matching.recount(&recounts);
        Ok(())
    }
}
