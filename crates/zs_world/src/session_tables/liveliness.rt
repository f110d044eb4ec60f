//! Liveliness: tokens, the subscribers to them and the gets of them, as the application declares and asks.

ghost use Rattle.std.specs.Prelude.{◌≡◌, OnOk, OnErr};
ghost use Rattle.zs_world.specs.Changes.{with_change};
ghost use Rattle.zs_world.specs.EntityChanges.{EntitiesFit};
ghost use Rattle.zs_world.specs.LivelinessChanges.{LivelinessFits};

use super::SessionTables;
use crate::change::{Change, EntityChange, EntityRow, LivelinessChange};
use crate::liveliness::next_behind;
use std::alloc::AllocError;
use zs_events::EntityKind;
use zs_tables::LivelinessSub;

impl SessionTables {
    /// Makes a change of the tokens that the network tells, or of the gets of tokens: a new get draws an entity number.
    pub(super) fn change_liveliness(&mut self, change: LivelinessChange) -> Result<(), AllocError>
        requires { LivelinessFits self.old.counters.entity change }
        ensures ok { OnOk result (self.new ≡ with_change (Change.OfLiveliness change) self.old) }
        ensures err { OnErr result (self.new ≡ self.old) }
    {
        let next = next_behind(&change, self.next_entity);
        self.liveliness.change(change)?;
        self.next_entity = next;
        Ok(())
    }
    /// A token with the next number is live.
    pub(super) fn add_token(&mut self, id: u32) -> Result<(), AllocError>
        requires { EntitiesFit self.old.counters.entity (EntityChange.Add (EntityRow.Token id)) }
        ensures ok { OnOk result (self.new ≡ with_change (Change.OfEntities (EntityChange.Add (EntityRow.Token id))) self.old) }
        ensures err { OnErr result (self.new ≡ self.old) }
    {
        self.liveliness.add_token(id)?;
        self.next_entity += 1;
        Ok(())
    }

    /// The token of that number ends, if this session has it.
    pub(super) fn end_token(&mut self, id: u32)
        ensures { self.new ≡ with_change (Change.OfEntities (EntityChange.End EntityKind.Token id)) self.old }
    {
        self.liveliness.remove_token(id);
    }

    /// A subscriber with the next number is live.
    pub(super) fn add_lsub(&mut self, row: LivelinessSub) -> Result<(), AllocError>
        requires { EntitiesFit self.old.counters.entity (EntityChange.Add (EntityRow.Lsub row)) }
        ensures ok { OnOk result (self.new ≡ with_change (Change.OfEntities (EntityChange.Add (EntityRow.Lsub row))) self.old) }
        ensures err { OnErr result (self.new ≡ self.old) }
    {
        self.liveliness.add_sub(row)?;
        self.next_entity += 1;
        Ok(())
    }

    /// The subscriber to liveliness of that number ends, if there is one.
    pub(super) fn end_lsub(&mut self, id: u32)
        ensures { self.new ≡ with_change (Change.OfEntities (EntityChange.End EntityKind.Lsub id)) self.old }
    {
        self.liveliness.remove_sub(id);
    }
}
