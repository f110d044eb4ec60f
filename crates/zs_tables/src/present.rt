//! All whom a listener may listen for at a moment, and how many of them match one.
ghost use Rattle.std.specs.Prelude.{◌≡◌, ◌<◌, length, IfOk, OnOk};
ghost use Rattle.zs_tables.specs.Matching.{candidates, count_of};
ghost use Rattle.zs_tables.specs.Present.{own_count, remote_count, own_sought, remote_sought};
ghost use Rattle.zs_subscriptions.specs.Recipients.{matches};

use crate::listener::{ListenerRow, Sought};
use crate::queryable_table::QueryableTable;
use crate::remote_table::RemoteTable;
use std::alloc::{AllocError, Global};
use std::marker::Brand;
use std::sync::ledger::{Blank, Ledger};
use zs_keys::{KeyExpr, Steps};
use zs_subscriptions::{Tables, takes};

/// Those whom a listener may listen for: the live subscribers and queryables, and those that the other side declared.
#[derive(Clone, Copy)]
pub struct Present<'a> {
    pub tables: &'a Tables,
    pub queryables: &'a QueryableTable,
    pub remote_entities: &'a RemoteTable,
}

impl Present<'_> {
    /// How many of them match a listener. It takes memory from `alloc`, and gives it back.
    ///
    /// # Errors
    ///
    /// Want of memory. So is a count above 2^64 - 1.
    pub fn count(&self, alloc: Global, listener: &ListenerRow) -> Result<usize, AllocError>
        ensures { IfOk result (λ n. n ≡ count_of (candidates self.now.tables.now.rows self.now.queryables.now self.now.remote_entities.now) listener.now) }
    {
        let own = self.count_own(alloc, listener)?;
        let told = self.count_remote(alloc, listener)?;
        let Some(count) = own.checked_add(told) else {
            return Err(AllocError);
        };
        Ok(count)
    }

    /// How many of this session.
    fn count_own(&self, alloc: Global, listener: &ListenerRow) -> Result<usize, AllocError>
        ensures { IfOk result (λ n. n ≡ own_count self.now.tables.now.rows self.now.queryables.now listener.now) }
    {
        if !takes(true, listener.destination) {
            return Ok(0);
        }
        let mut ids = Vec::new(alloc);
        self.own_into(listener, &mut ids)?;
        Ok(ids.len())
    }

    /// Makes a list the ids of those of this session, of any destination.
    fn own_into(&self, listener: &ListenerRow, ids: &mut Vec<u32>) -> Result<(), AllocError>
        ensures { OnOk result (length ids.new.items ≡ own_sought listener.now.sought listener.now.key.text self.now.tables.now.rows self.now.queryables.now) }
    {
        match listener.sought {
            Sought::Subscribers => own_subs_into(self.tables, &listener.key, ids),
            Sought::Queryables => self.queryables.answering_into(&listener.key, false, ids),
            Sought::CompleteQueryables => self.queryables.answering_into(&listener.key, true, ids),
        }
    }

    /// How many of the other side.
    fn count_remote(&self, alloc: Global, listener: &ListenerRow) -> Result<usize, AllocError>
        ensures { IfOk result (λ n. n ≡ remote_count self.now.remote_entities.now listener.now) }
    {
        if !takes(false, listener.destination) {
            return Ok(0);
        }
        let mut numbers = Vec::new(alloc);
        self.remote_into(listener, &mut numbers)?;
        Ok(numbers.len())
    }

    /// Makes a list the numbers of those of the other side.
    fn remote_into(&self, listener: &ListenerRow, numbers: &mut Vec<u32>) -> Result<(), AllocError>
        ensures { OnOk result (length numbers.new.items ≡ remote_sought listener.now.sought listener.now.key.text self.now.remote_entities.now) }
    {
        match listener.sought {
            Sought::Subscribers => self.remote_entities.subs_into(&listener.key, numbers),
            Sought::Queryables => self
                .remote_entities
                .answering_into(&listener.key, false, numbers),
            Sought::CompleteQueryables => self
                .remote_entities
                .answering_into(&listener.key, true, numbers),
        }
    }
}

/// Makes a list the ids of the subscribers whose key has a key in common with that one.
fn own_subs_into(tables: &Tables, key: &KeyExpr<'_>, ids: &mut Vec<u32>) -> Result<(), AllocError>
    ensures { OnOk result (ids.new.items ≡ matches key.now.text tables.now.rows) }
{
    met_uncounted::<Brand>(tables, Blank::new(1), key, ids)
}

/// `Tables::met_into` with a counter of its own, which nobody reads.
fn met_uncounted<L: Ledger>(
    tables: &Tables,
    blank: Blank,
    key: &KeyExpr<'_>,
    ids: &mut Vec<u32>,
) -> Result<(), AllocError>
    requires name { blank.name ≡ L.name }
    requires parts { blank.parts ≡ L.parts }
    requires some { 0 < blank.parts }
    ensures { OnOk result (ids.new.items ≡ matches key.now.text tables.now.rows) }
{
    let mut steps = Steps::<L>::new(blank);
    tables.met_into(key, ids, &mut steps)
}
