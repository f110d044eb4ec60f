//! Matching: listeners, whether anyone matches, and whom the network tells.

ghost use Rattle.std.specs.Prelude.{◌≡◌, Some, OnOk, OnErr};
ghost use Rattle.zs_tables.specs.Matching.{candidates};
ghost use Rattle.zs_world.specs.World.{present_at};
ghost use Rattle.zs_world.specs.Changes.{with_change};
ghost use Rattle.zs_world.specs.EntityChanges.{EntitiesFit};

use super::SessionTables;
use crate::change::{Change, EntityChange, EntityRow, MatchingChange};
use std::alloc::AllocError;
use zs_entity_tables::{recounts_of, remote_queryable_of, remote_subscriber_of};
use zs_events::EntityKind;
use zs_tables::{Candidate, ListenerRow, Present, RemoteQueryable, RemoteSubscriber};

impl SessionTables {
    /// Those whom a listener may listen for.
    pub fn present(&self) -> Present<'_>
        ensures { candidates result.tables.now.rows result.queryables.now result.remote_entities.now ≡ present_at self.now }
    {
        Present {
            tables: &self.tables,
            queryables: &self.queryables,
            remote_entities: self.matching.remote_entities(),
        }
    }

    /// Makes a change of those whom the network tells, and of how many match each listener.
    pub(super) fn change_matching(&mut self, change: MatchingChange) -> Result<(), AllocError>
        ensures ok { OnOk result (self.new ≡ with_change (Change.OfMatching change) self.old) }
        ensures err { OnErr result (self.new ≡ self.old) }
    {
        match change {
            MatchingChange::TellSub { row } => self.tell_sub(row),
            MatchingChange::ForgetSub { number } => self.forget_sub(number),
            MatchingChange::TellQueryable { row } => self.tell_queryable(row),
            MatchingChange::ForgetQueryable { number } => self.forget_queryable(number),
        }
    }

    /// A listener with the next number is live.
    pub(super) fn add_listener(&mut self, row: ListenerRow) -> Result<(), AllocError>
        requires { EntitiesFit self.old.counters.entity (EntityChange.Add (EntityRow.Listener row)) }
        ensures ok { OnOk result (self.new ≡ with_change (Change.OfEntities (EntityChange.Add (EntityRow.Listener row))) self.old) }
        ensures err { OnErr result (self.new ≡ self.old) }
    {
        let count = self.present().count(self.alloc, &row)?;
        self.matching.add(row, count)?;
        self.next_entity += 1;
        Ok(())
    }

    /// The listener of that number ends, if there is one.
    pub(super) fn end_listener(&mut self, id: u32)
        ensures { self.new ≡ with_change (Change.OfEntities (EntityChange.End EntityKind.Listener id)) self.old }
    {
        self.matching.end(id);
    }

    /// A told subscriber takes the place of one of its number: listeners count the new one, and the old one no more.
    fn tell_sub(&mut self, row: RemoteSubscriber) -> Result<(), AllocError>
        ensures ok { OnOk result (self.new ≡ with_change (Change.OfMatching (MatchingChange.TellSub row)) self.old) }
        ensures err { OnErr result (self.new ≡ self.old) }
    {
        let _ascending = self.matching.remote_entities().sub_count();
        let goes = remote_subscriber_of(self.matching.remote_entities(), row.number);
        let comes = Some(Candidate::remote_subscriber(&row));
        let recounts = recounts_of(self.matching.listeners(), goes, comes)?;
        self.matching.tell_sub(row)?;
        self.matching.recount(&recounts);
        Ok(())
    }

    /// A told subscriber ends, if there is one of that number: the listeners that it matched count it no more.
    fn forget_sub(&mut self, number: u32) -> Result<(), AllocError>
        ensures ok { OnOk result (self.new ≡ with_change (Change.OfMatching (MatchingChange.ForgetSub number)) self.old) }
        ensures err { OnErr result (self.new ≡ self.old) }
    {
        let _ascending = self.matching.remote_entities().sub_count();
        let goes = remote_subscriber_of(self.matching.remote_entities(), number);
        let recounts = recounts_of(self.matching.listeners(), goes, None)?;
        self.matching.forget_sub(number);
        self.matching.recount(&recounts);
        Ok(())
    }

    /// A told queryable takes the place of one of its number: listeners count the new one, and the old one no more.
    fn tell_queryable(&mut self, row: RemoteQueryable) -> Result<(), AllocError>
        ensures ok { OnOk result (self.new ≡ with_change (Change.OfMatching (MatchingChange.TellQueryable row)) self.old) }
        ensures err { OnErr result (self.new ≡ self.old) }
    {
        let _ascending = self.matching.remote_entities().queryable_count();
        let goes = remote_queryable_of(self.matching.remote_entities(), row.number);
        let comes = Some(Candidate::remote_queryable(&row));
        let recounts = recounts_of(self.matching.listeners(), goes, comes)?;
        self.matching.tell_queryable(row)?;
        self.matching.recount(&recounts);
        Ok(())
    }

    /// A told queryable ends, if there is one of that number: the listeners that it matched count it no more.
    fn forget_queryable(&mut self, number: u32) -> Result<(), AllocError>
        ensures ok { OnOk result (self.new ≡ with_change (Change.OfMatching (MatchingChange.ForgetQueryable number)) self.old) }
        ensures err { OnErr result (self.new ≡ self.old) }
    {
        let _ascending = self.matching.remote_entities().queryable_count();
        let goes = remote_queryable_of(self.matching.remote_entities(), number);
        let recounts = recounts_of(self.matching.listeners(), goes, None)?;
        self.matching.forget_queryable(number);
        self.matching.recount(&recounts);
        Ok(())
    }
}
