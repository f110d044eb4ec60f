//! The live subscribers to liveliness, and which of them hear of a token.
ghost use Rattle.std.specs.Prelude.{◌≡◌, ℕ, ◌==◌, [], length, map, not, filter, OnOk, OnErr};
ghost use Rattle.std.specs.List.{list_any};
ghost use Rattle.std.specs.Map.Iter.{ShowsInOrder, deref_pair};
ghost use Rattle.zs_keyed.specs.Ascending.{Ascend};
ghost use Rattle.zs_keyed.specs.Keyed.{passes_by};
ghost use Rattle.zs_liveliness.specs.Liveliness.{put_new, hearers, wants};

use crate::liveliness_sub::LivelinessSub;
use std::alloc::{AllocError, Global};
use std::collections::btree_map::Iter;
use std::marker::Model;
use zs_keyed::KeyedRows;
use zs_keys::KeyExpr;

/// The live subscribers to liveliness in ascending id, with a tree of their keys that finds those which a token meets.
/// No call that answers want of memory has changed anything.
#[derive(Drop)]
pub struct LivelinessSubs {
    rows: KeyedRows<LivelinessSub>,
}

impl Model for LivelinessSubs {
    ghost use Rattle.std.specs.Prelude.{List};
    ghost use Rattle.zs_liveliness.specs.declared.liveliness_sub.LivelinessSub.{LivelinessSub};

    ghost Value = { List LivelinessSub };

    ghost view = { λ t. t.rows };
}

impl LivelinessSubs {
    /// No subscribers. It takes its memory from `alloc`.
    pub fn new(alloc: Global) -> LivelinessSubs
        ensures { result ≡ [] }
    {
        LivelinessSubs {
            rows: KeyedRows::new(alloc),
        }
    }

    /// Puts a subscriber in, unless one of its id is there.
    ///
    /// # Errors
    ///
    /// Want of memory alone.
    pub fn put(&mut self, row: LivelinessSub) -> Result<(), AllocError>
        ensures ok { OnOk result (self.new ≡ put_new (λ s. s.id) row self.old) }
        ensures err { OnErr result (self.new ≡ self.old) }
    {
        self.rows.put(row)
    }

    /// Takes a subscriber out, if it is there.
    pub fn remove(&mut self, id: u32)
        ensures { self.new ≡ filter (λ s. not (s.id == id)) self.old }
    {
        self.rows.remove(id);
    }

    /// Takes all out.
    pub fn clear(&mut self)
        ensures { self.new ≡ [] }
    {
        self.rows.clear();
    }

    /// Whether there is a subscriber of that id.
    pub fn has(&self, id: u32) -> bool
        ensures { result ≡ list_any (λ s. s.id == id) self.now }
    {
        self.rows.has(id)
    }

    /// How many subscribers there are. Their ids ascend.
    pub fn len(&self) -> usize
        ensures len { result ≡ length self.now }
        ensures ascending { Ascend (λ s. s.id) self.now }
    {
        self.rows.len()
    }

    /// The subscribers with their ids, ascending.
    pub fn iter(&self) -> Iter<'_, u32, LivelinessSub>
        ensures rest { map (λ e. e.1) result ≡ self.now }
        ensures runs { ShowsInOrder (deref_pair {K = ℕ} {X = LivelinessSub}) }
    {
        self.rows.iter()
    }

    /// Makes a list the ascending ids of the subscribers that hear of a token on that key. `before` says that it was there
    /// before, so that only those hear of it which want such ones.
    ///
    /// # Errors
    ///
    /// Want of memory alone; the list is as before then.
    pub fn hearers_into(
        &self,
        key: &KeyExpr<'_>,
        before: bool,
        into: &mut Vec<u32>,
    ) -> Result<(), AllocError>
        ensures ok { OnOk result (into.new.items ≡ hearers before key.now.text self.now) }
        ensures err { OnErr result (into.new.items ≡ into.old.items) }
    {
        self.rows.matches_into(key, into)?;
        keep_hearers(before, &self.rows, into);
        Ok(())
    }
}

/// Leaves those ids out of a list whose subscribers don't hear of such tokens.
fn keep_hearers(before: bool, rows: &KeyedRows<LivelinessSub>, ids: &mut Vec<u32>)
    requires { Ascend (λ s. s.id) rows.now }
    ensures { ids.new.items ≡ filter (passes_by (λ s. s.id) (wants before) rows.now) ids.old.items }
{
    ids.retain(|id| hears(before, rows, *id));
}

/// Whether the subscriber of that id hears of such tokens.
fn hears(before: bool, rows: &KeyedRows<LivelinessSub>, id: u32) -> bool
    requires { Ascend (λ s. s.id) rows.now }
    ensures { result ≡ passes_by (λ s. s.id) (wants before) rows.now id }
{
    let Some(row) = rows.find(id) else {
        return false;
    };
    wants(before, row)
}

/// Whether a subscriber hears of such tokens, whatever its key.
fn wants(before: bool, row: &LivelinessSub) -> bool
    ensures { result ≡ wants before row.now }
{
    row.history || !before
}
