//! All tables of a session in one, and the one call that changes them.

ghost use Rattle.zs_world.specs.Changes.{Fits, with_change};
ghost use Rattle.zs_model.specs.Settings.{is_valid};
ghost use Rattle.zs_world.specs.World.{new_world};
ghost use Rattle.std.specs.Prelude.{◌≡◌, IfOk, OnOk, OnErr, IsTrue};

use crate::change::Change;
use crate::liveliness::Liveliness;
use std::alloc::{AllocError, Global};
use std::marker::Model;
use zs_entity_tables::{EntityTable, IdSet, KeyHolderCounts, Matching};
use zs_model::{PubRow, QuerierRow, Settings};
use zs_query::{GetTable, RequestTable};
use zs_tables::{Groups, QueryableTable, Tables};

mod cancelling;
mod declared_keys;
mod entities;
mod gets;
mod liveliness;
mod matching;
mod publishers;
mod queriers;
mod queryables;
mod recipients;
mod status;
mod subscribers;
mod values;

/// What a session holds: what the application declared and the network told, and the numbers that it draws next. It changes by `apply`
/// alone.
/// Contracts see it as a `World` of plain lists and counters.
pub struct SessionTables {
    pub alloc: Global,
    pub settings: Settings,
    pub closed: bool,
    pub next_entity: u32,
    pub next_key: u16,
    pub tables: Tables,
    pub holders: KeyHolderCounts,
    pub publishers: EntityTable<PubRow>,
    pub queryables: QueryableTable,
    pub queriers: EntityTable<QuerierRow>,
    pub left_subs: IdSet,
    pub left_queryables: IdSet,
    pub groups: Groups,
    pub asking: GetTable,
    pub liveliness: Liveliness,
    pub matching: Matching,
    pub handing: RequestTable,
    pub next_cancellation_token: u32,
    pub taken_cancellation_tokens: IdSet,
}

impl Drop for SessionTables {
    /// Lets go of the settings and of each table; the allocator, the flag and the counters are plain values.
    fn drop(self) {
        let SessionTables {
            alloc: _,
            settings,
            closed: _,
            next_entity: _,
            next_key: _,
            tables,
            holders,
            publishers,
            queryables,
            queriers,
            left_subs,
            left_queryables,
            groups,
            asking,
            liveliness,
            matching,
            handing,
            next_cancellation_token: _,
            taken_cancellation_tokens,
        } = self;
        drop(settings);
        drop(tables);
        drop(holders);
        drop(publishers);
        drop(queryables);
        drop(queriers);
        drop(left_subs);
        drop(left_queryables);
        drop(groups);
        drop(asking);
        drop(liveliness);
        drop(matching);
        drop(handing);
        drop(taken_cancellation_tokens);
    }
}

impl Model for SessionTables {
    ghost use Rattle.zs_world.specs.World.{World};
    ghost use Rattle.zs_entity_tables.specs.MatchingTables.{shown};

    ghost Value = { World };

    ghost view = { λ s. record {
      settings = s.settings;
      closed = s.closed;
      counters = record { entity = s.next_entity; key = s.next_key };
      entities = record {
        subs = s.tables.rows;
        pubs = s.publishers;
        queryables = s.queryables;
        queriers = s.queriers;
        left_subs = s.left_subs;
        left_queryables = s.left_queryables;
      };
      keys = record { local_resources = s.tables.own; holders = s.holders.rows; remote_resources = s.tables.told };
      groups = s.groups;
      asking = s.asking;
      liveliness = s.liveliness;
      matching = shown s.matching;
      handing = s.handing;
      cancelling = record { next = s.next_cancellation_token; taken = s.taken_cancellation_tokens };
    } };

    ghost use Rattle.zs_entity_tables.specs.Bounds.{AreBelow};

    ghost invariant = { λ s. AreBelow s.next_entity s.tables.rows s.publishers s.queryables s.queriers s.matching.remote_entities s.matching.listeners };
}

impl SessionTables {
    /// An open session in which nothing is declared. It keeps the allocator.
    pub fn new(alloc: Global, settings: &Settings) -> Result<SessionTables, AllocError>
        requires { IsTrue (is_valid settings.now) }
        ensures { IfOk result (λ state. state ≡ new_world settings.now) }
    {
        Ok(SessionTables {
            alloc,
            settings: settings.try_clone(alloc)?,
            closed: false,
            next_entity: settings.entity_start + 1,
            next_key: settings.key_start,
            tables: Tables::new(alloc),
            holders: KeyHolderCounts::new(alloc),
            publishers: EntityTable::new(alloc),
            queryables: QueryableTable::new(alloc),
            queriers: EntityTable::new(alloc),
            left_subs: IdSet::new(alloc),
            left_queryables: IdSet::new(alloc),
            groups: Groups::new(alloc),
            asking: GetTable::new(alloc, settings.query_start),
            liveliness: Liveliness::new(alloc),
            matching: Matching::new(alloc),
            handing: RequestTable::new(alloc),
            next_cancellation_token: 0,
            taken_cancellation_tokens: IdSet::new(alloc),
        })
    }

    /// Makes a change that fits. At an `Err` the tables are as they were.
    pub fn apply(&mut self, change: Change) -> Result<(), AllocError>
        requires { Fits self.old change }
        ensures ok { OnOk result (self.new ≡ with_change change self.old) }
        ensures err { OnErr result (self.new ≡ self.old) }
    {
        match change {
            Change::Nothing => Ok(()),
            Change::OfKeys(change) => self.change_keys(change),
            Change::OfEntities(change) => self.change_entities(change),
            Change::OfNetwork(change) => self.change_network(change),
            Change::OfGets(change) => self.change_gets(change),
            Change::OfLiveliness(change) => self.change_liveliness(change),
            Change::OfValues(change) => self.change_values(change),
            Change::OfCancellation(change) => self.change_cancellation(change),
            Change::OfMatching(change) => self.change_matching(change),
            Change::Shut => {
                self.shut();
                Ok(())
            }
        }
    }
}
