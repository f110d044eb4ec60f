//! Changes of the subscribers, and the close.

ghost use Rattle.std.specs.Prelude.{◌≡◌, ◌<◌, ◌++◌, ◌∷◌, [], Some, None, All, OnOk, OnErr};
ghost use Rattle.zs_world.specs.Changes.{with_change};
ghost use Rattle.zs_world.specs.EntityChanges.{EntitiesFit};
ghost use Rattle.zs_model.specs.Groups.{sub_shared, joined_by};

use super::SessionTables;
use crate::change::{Change, EntityChange, EntityRow};
use std::alloc::{AllocError, Global};
use zs_entity_tables::{join_group, leave_found, own_sub_of, recounts_of};
use zs_events::EntityKind;
use zs_model::{KeyList, copy_of, has_network};
use zs_tables::{Candidate, GroupKind, Groups, SubRow, Tables};

impl SessionTables {
    /// A subscriber with the next number is live.
    pub(super) fn add_sub(&mut self, row: SubRow) -> Result<(), AllocError>
        requires { EntitiesFit self.old.counters.entity (EntityChange.Add (EntityRow.Sub row)) }
        ensures ok { OnOk result (self.new ≡ with_change (Change.OfEntities (EntityChange.Add (EntityRow.Sub row))) self.old) }
        ensures err { OnErr result (self.new ≡ self.old) }
    {
        let comes = Some(Candidate::own_sub(&row));
        let recounts = recounts_of(self.matching.listeners(), None, comes)?;
        let aggregates = &self.settings.aggregated_subscribers;
        add_to_group(
            self.alloc,
            &mut self.tables,
            &mut self.groups,
            aggregates,
            row,
        )?;
        self.matching.recount(&recounts);
        self.next_entity += 1;
        Ok(())
    }

    /// A subscriber ends: it leaves the group of its key, and the listeners that it matched count it no more.
    pub(super) fn end_sub(&mut self, id: u32) -> Result<(), AllocError>
        ensures ok { OnOk result (self.new ≡ with_change (Change.OfEntities (EntityChange.End EntityKind.Sub id)) self.old) }
        ensures err { OnErr result (self.new ≡ self.old) }
    {
        let _ascending = self.tables.len();
        let goes = own_sub_of(&self.tables, id);
        let recounts = recounts_of(self.matching.listeners(), goes, None)?;
        let row = self.tables.row(id);
        let aggregates = &self.settings.aggregated_subscribers;
        leave_found(&mut self.groups, GroupKind::Subscribers, aggregates, row);
        self.tables.remove(id);
        self.matching.recount(&recounts);
        Ok(())
    }

    /// Nothing that the application declared lives any more.
    pub(super) fn shut(&mut self)
        ensures { self.new ≡ with_change Change.Shut self.old }
    {
        self.closed = true;
        self.tables.clear();
        self.holders.clear();
        self.publishers.clear();
        self.queryables.clear();
        self.queriers.clear();
        self.groups = Groups::new(self.alloc);
        self.asking.close();
        self.liveliness.shut();
        self.matching.shut();
    }
}

/// A subscriber is there, and in the group of its text.
fn add_to_group(
    alloc: Global,
    tables: &mut Tables,
    groups: &mut Groups,
    aggregates: &KeyList,
    row: SubRow,
) -> Result<(), AllocError>
    requires { All (λ other. other.id < row.id) tables.old.rows }
    ensures tables { OnOk result (tables.new ≡ record tables.old { rows = tables.old.rows ++ row ∷ [] }) }
    ensures groups { OnOk result (groups.new ≡ record groups.old { subscribers = joined_by aggregates.now (sub_shared row) groups.old.subscribers }) }
    ensures same_tables { OnErr result (tables.new ≡ tables.old) }
    ensures same_groups { OnErr result (groups.new ≡ groups.old) }
{
    let id = row.id;
    let is_announced = has_network(row.origin);
    let key = copy_of(alloc, &row.key)?;
    tables.add(row)?;
    if let Err(error) = join_group(
        groups,
        GroupKind::Subscribers,
        aggregates,
        is_announced,
        &key,
        id,
    ) {
        tables.remove(id);
        return Err(error);
    }
    Ok(())
}
