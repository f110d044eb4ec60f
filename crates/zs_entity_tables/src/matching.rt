//! The part of a session that tells publishers and queriers whether anyone listens.

ghost use Rattle.std.specs.Prelude.{◌≡◌, ◌<◌, ◌==◌, ◌++◌, ◌∷◌, [], All, not, filter, OnOk, OnErr};
ghost use Rattle.zs_subscriptions.specs.Ascending.{placed_by};
ghost use Rattle.zs_tables.specs.Matching.{recounted};
ghost use Rattle.zs_entity_tables.specs.MatchingTables.{none_kept, shown};

use crate::id_set::IdSet;
use std::alloc::{AllocError, Global};
use std::marker::Model;
use zs_tables::{
    ListenerRow, ListenerTable, Recount, RemoteQueryable, RemoteSubscriber, RemoteTable,
};

/// What a session knows of matching: its listeners, each with how many match, those of them that were left to themselves,
/// and whom the network told. No call that answers want of memory has changed anything.
#[derive(Drop)]
pub struct Matching {
    listeners: ListenerTable,
    left: IdSet,
    remote_entities: RemoteTable,
}

impl Model for Matching {
    ghost use Rattle.zs_entity_tables.specs.MatchingTables.{Kept};

    ghost Value = { Kept };

    ghost view = { λ m. record { listeners = m.listeners; left = m.left; remote_entities = m.remote_entities } };
}

impl Matching {
    /// No listeners, and nobody whom the network told. It takes its memory from `alloc`.
    pub fn new(alloc: Global) -> Matching
        ensures { result ≡ none_kept }
    {
        Matching {
            listeners: ListenerTable::new(alloc),
            left: IdSet::new(alloc),
            remote_entities: RemoteTable::new(alloc),
        }
    }

    /// The live listeners.
    pub fn listeners(&self) -> &ListenerTable
        ensures { result.now ≡ self.now.listeners }
    {
        &self.listeners
    }

    /// The numbers of the listeners that were left to themselves.
    pub fn left(&self) -> &IdSet
        ensures { result.now ≡ self.now.left }
    {
        &self.left
    }

    /// The subscribers and queryables that the network told.
    pub fn remote_entities(&self) -> &RemoteTable
        ensures { result.now ≡ self.now.remote_entities }
    {
        &self.remote_entities
    }

    /// A listener is there, whom so many match.
    pub fn add(&mut self, row: ListenerRow, count: usize) -> Result<(), AllocError>
        requires { All (λ l. l.row.id < row.id) self.old.listeners }
        ensures ok { OnOk result (self.new ≡ record self.old { listeners = self.old.listeners ++ record { row = row; count = count } ∷ [] }) }
        ensures rows { OnOk result (shown self.new ≡ record (shown self.old) { listeners = (shown self.old).listeners ++ row ∷ [] }) }
        ensures err { OnErr result (self.new ≡ self.old) }
    {
        self.listeners.add(row, count)
    }

    /// A listener ends.
    pub fn end(&mut self, id: u32)
        ensures kept { self.new ≡ record self.old { listeners = filter (λ l. not (l.row.id == id)) self.old.listeners } }
        ensures rows { shown self.new ≡ record (shown self.old) { listeners = filter (λ row. not (row.id == id)) (shown self.old).listeners } }
    {
        self.listeners.remove(id);
    }

    /// All that listen to a publisher or a querier end.
    pub fn end_of(&mut self, parent: u32)
        ensures kept { self.new ≡ record self.old { listeners = filter (λ l. not (l.row.parent == parent)) self.old.listeners } }
        ensures rows { shown self.new ≡ record (shown self.old) { listeners = filter (λ row. not (row.parent == parent)) (shown self.old).listeners } }
    {
        self.listeners.remove_of(parent);
    }

    /// A listener is left to itself.
    pub fn leave(&mut self, id: u32) -> Result<(), AllocError>
        ensures ok { OnOk result (self.new ≡ record self.old { left = placed_by (λ n. n) id self.old.left }) }
        ensures err { OnErr result (self.new ≡ self.old) }
    {
        self.left.insert(id)
    }

    /// The network tells a subscriber.
    pub fn tell_sub(&mut self, row: RemoteSubscriber) -> Result<(), AllocError>
        ensures ok { OnOk result (self.new ≡ record self.old { remote_entities = record self.old.remote_entities { subs = placed_by (λ s. s.number) row self.old.remote_entities.subs } }) }
        ensures err { OnErr result (self.new ≡ self.old) }
    {
        self.remote_entities.set_sub(row)
    }

    /// The network ends a subscriber.
    pub fn forget_sub(&mut self, number: u32)
        ensures { self.new ≡ record self.old { remote_entities = record self.old.remote_entities { subs = filter (λ s. not (s.number == number)) self.old.remote_entities.subs } } }
    {
        self.remote_entities.unset_sub(number);
    }

    /// The network tells a queryable.
    pub fn tell_queryable(&mut self, row: RemoteQueryable) -> Result<(), AllocError>
        ensures ok { OnOk result (self.new ≡ record self.old { remote_entities = record self.old.remote_entities { queryables = placed_by (λ q. q.number) row self.old.remote_entities.queryables } }) }
        ensures err { OnErr result (self.new ≡ self.old) }
    {
        self.remote_entities.set_queryable(row)
    }

    /// The network ends a queryable.
    pub fn forget_queryable(&mut self, number: u32)
        ensures { self.new ≡ record self.old { remote_entities = record self.old.remote_entities { queryables = filter (λ q. not (q.number == number)) self.old.remote_entities.queryables } } }
    {
        self.remote_entities.unset_queryable(number);
    }

    /// Sets how many match.
    pub fn recount(&mut self, all: &[Recount])
        ensures kept { self.new ≡ record self.old { listeners = recounted all.now self.old.listeners } }
        ensures rows { shown self.new ≡ shown self.old }
    {
        self.listeners.recount(all);
    }

    /// Nobody listens any more.
    pub fn shut(&mut self)
        ensures { self.new ≡ record self.old { listeners = [] } }
    {
        self.listeners.clear();
    }
}
