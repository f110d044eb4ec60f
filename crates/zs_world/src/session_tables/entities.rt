//! Changes of what the application declared, each by the kind of the entity.

ghost use Rattle.std.specs.Prelude.{◌≡◌, OnOk, OnErr};
ghost use Rattle.zs_world.specs.Changes.{with_change};
ghost use Rattle.zs_world.specs.EntityChanges.{EntitiesFit};

use super::SessionTables;
use crate::change::{Change, EntityChange, EntityRow};
use std::alloc::AllocError;
use zs_events::{BackgroundKind, EntityKind};

impl SessionTables {
    /// Makes a change of what the application declared: one is added, ends, or is left to itself.
    pub(super) fn change_entities(&mut self, change: EntityChange) -> Result<(), AllocError>
        requires { EntitiesFit self.old.counters.entity change }
        ensures ok { OnOk result (self.new ≡ with_change (Change.OfEntities change) self.old) }
        ensures err { OnErr result (self.new ≡ self.old) }
    {
        match change {
            EntityChange::Add(row) => self.add_entity(row),
            EntityChange::End { kind, id } => self.end_entity(kind, id),
            EntityChange::Leave { kind, id } => self.leave_entity(kind, id),
        }
    }

    /// What has the next number is live.
    fn add_entity(&mut self, row: EntityRow) -> Result<(), AllocError>
        requires { EntitiesFit self.old.counters.entity (EntityChange.Add row) }
        ensures ok { OnOk result (self.new ≡ with_change (Change.OfEntities (EntityChange.Add row)) self.old) }
        ensures err { OnErr result (self.new ≡ self.old) }
    {
        match row {
            EntityRow::Sub(row) => self.add_sub(row),
            EntityRow::Pub(row) => self.add_pub(row),
            EntityRow::Queryable(row) => self.add_queryable(row),
            EntityRow::Querier(row) => self.add_querier(row),
            EntityRow::Listener(row) => self.add_listener(row),
            EntityRow::Token(id) => self.add_token(id),
            EntityRow::Lsub(row) => self.add_lsub(row),
        }
    }

    /// Ends what has that kind and number. The end of a subscriber or a queryable may want memory, to count anew whom
    /// listeners match.
    fn end_entity(&mut self, kind: EntityKind, id: u32) -> Result<(), AllocError>
        ensures ok { OnOk result (self.new ≡ with_change (Change.OfEntities (EntityChange.End kind id)) self.old) }
        ensures err { OnErr result (self.new ≡ self.old) }
    {
        match kind {
            EntityKind::Sub => self.end_sub(id),
            EntityKind::Queryable => self.end_queryable(id),
            EntityKind::Pub => {
                self.end_pub(id);
                Ok(())
            }
            EntityKind::Querier => {
                self.end_querier(id);
                Ok(())
            }
            EntityKind::Listener => {
                self.end_listener(id);
                Ok(())
            }
            EntityKind::Token => {
                self.end_token(id);
                Ok(())
            }
            EntityKind::Lsub => {
                self.end_lsub(id);
                Ok(())
            }
        }
    }

    /// What is left to itself lives on, and can no longer be named.
    fn leave_entity(&mut self, kind: BackgroundKind, id: u32) -> Result<(), AllocError>
        ensures ok { OnOk result (self.new ≡ with_change (Change.OfEntities (EntityChange.Leave kind id)) self.old) }
        ensures err { OnErr result (self.new ≡ self.old) }
    {
        match kind {
            BackgroundKind::Sub => self.left_subs.insert(id),
            BackgroundKind::Queryable => self.left_queryables.insert(id),
            BackgroundKind::Listener => self.matching.leave(id),
            BackgroundKind::Lsub => self.liveliness.leave_sub(id),
        }
    }
}
