//! Queriers, which share a network declaration by their keys.

ghost use Rattle.std.specs.Prelude.{◌≡◌, OnOk, OnErr};
ghost use Rattle.zs_world.specs.Changes.{with_change};
ghost use Rattle.zs_world.specs.EntityChanges.{EntitiesFit};

use super::SessionTables;
use crate::change::{Change, EntityChange, EntityRow};
use std::alloc::AllocError;
use zs_entity_tables::{add_to_group, leave_found};
use zs_events::EntityKind;
use zs_model::{KeyList, QuerierRow};
use zs_tables::GroupKind;

impl SessionTables {
    /// A querier with the next number is live.
    pub(super) fn add_querier(&mut self, row: QuerierRow) -> Result<(), AllocError>
        requires { EntitiesFit self.old.counters.entity (EntityChange.Add (EntityRow.Querier row)) }
        ensures ok { OnOk result (self.new ≡ with_change (Change.OfEntities (EntityChange.Add (EntityRow.Querier row))) self.old) }
        ensures err { OnErr result (self.new ≡ self.old) }
    {
        let alone = KeyList::new();
        add_to_group(
            self.alloc,
            &mut self.queriers,
            &mut self.groups,
            GroupKind::Queriers,
            &alone,
            row,
        )?;
        self.next_entity += 1;
        Ok(())
    }

    /// A querier ends, and its gets and listeners with it.
    pub(super) fn end_querier(&mut self, id: u32)
        ensures { self.new ≡ with_change (Change.OfEntities (EntityChange.End EntityKind.Querier id)) self.old }
    {
        let alone = KeyList::new();
        let row = self.queriers.get(id);
        leave_found(&mut self.groups, GroupKind::Queriers, &alone, row);
        self.queriers.remove(id);
        self.asking.end_querier(id);
        self.matching.end_of(id);
    }
}
