//! Changes of the publishers.

ghost use Rattle.std.specs.Prelude.{◌≡◌, OnOk, OnErr};
ghost use Rattle.zs_world.specs.Changes.{with_change};
ghost use Rattle.zs_world.specs.EntityChanges.{EntitiesFit};

use super::SessionTables;
use crate::change::{Change, EntityChange, EntityRow};
use std::alloc::AllocError;
use zs_entity_tables::{add_to_group, leave_found};
use zs_events::EntityKind;
use zs_model::PubRow;
use zs_tables::GroupKind;

impl SessionTables {
    /// A publisher with the next number is live.
    pub(super) fn add_pub(&mut self, row: PubRow) -> Result<(), AllocError>
        requires { EntitiesFit self.old.counters.entity (EntityChange.Add (EntityRow.Pub row)) }
        ensures ok { OnOk result (self.new ≡ with_change (Change.OfEntities (EntityChange.Add (EntityRow.Pub row))) self.old) }
        ensures err { OnErr result (self.new ≡ self.old) }
    {
        let aggregates = &self.settings.aggregated_publishers;
        add_to_group(
            self.alloc,
            &mut self.publishers,
            &mut self.groups,
            GroupKind::Publishers,
            aggregates,
            row,
        )?;
        self.next_entity += 1;
        Ok(())
    }

    /// A publisher ends: it leaves the group of its key, and the listeners to it end with it.
    pub(super) fn end_pub(&mut self, id: u32)
        ensures { self.new ≡ with_change (Change.OfEntities (EntityChange.End EntityKind.Pub id)) self.old }
    {
        let row = self.publishers.get(id);
        let aggregates = &self.settings.aggregated_publishers;
        leave_found(&mut self.groups, GroupKind::Publishers, aggregates, row);
        self.publishers.remove(id);
        self.matching.end_of(id);
    }
}
