//! The table of the live listeners, and what becomes of their counts where someone comes or goes.
ghost use Rattle.std.specs.Prelude.{◌≡◌, ℕ, ◌<◌, ◌==◌, ◌&&◌, ◌+◌, ◌-◌, ◌++◌, [], ◌∷◌, true, false, All, map, not, filter, length, Some, MatchOption, IfSome, IfOk, OnOk, OnErr, if◌then◌else◌};
ghost use Rattle.std.specs.List.{find, list_any};
ghost use Rattle.std.specs.Map.Iter.{ShowsInOrder, deref_pair};
ghost use Rattle.zs_subscriptions.specs.Ascending.{Ascend};
ghost use Rattle.zs_subscriptions.specs.Recipients.{first_behind};
ghost use Rattle.zs_tables.specs.Matching.{seen_if, suits_if, recounts, recounted, with_count};
ghost use Rattle.zs_tables.specs.Listeners.{is_of, meets_if, meets_one, merged, recounts_at, recount_in, listed};

use crate::candidate::Candidate;
use crate::listener::{Listener, ListenerRow};
use crate::recount::Recount;
use std::alloc::{AllocError, Global};
use std::collections::btree_map::Iter;
use std::marker::Model;
use zs_keyed::KeyedRows;
use zs_rows::Index;

/// The live listeners in ascending id, each with how many match, and a tree of their keys that finds those which
/// someone who comes or goes concerns. Those of a publisher or querier are found by its number. No call that answers want
/// of memory has changed anything.
#[derive(Drop)]
pub struct ListenerTable {
    alloc: Global,
    rows: KeyedRows<Listener>,
    parents: Index,
}

impl Model for ListenerTable {
    ghost use Rattle.std.specs.Prelude.{List};
    ghost use Rattle.zs_tables.specs.Matching.{Listener};
    ghost use Rattle.zs_tables.specs.Listeners.{AreIndexed};

    ghost Value = { List Listener };

    ghost view = { λ t. t.rows };

    ghost invariant = { λ t. AreIndexed t.rows t.parents };
}

impl ListenerTable {
    /// No listeners. It takes its memory from `alloc`.
    pub fn new(alloc: Global) -> ListenerTable
        ensures { result ≡ [] }
    {
        ListenerTable {
            alloc,
            rows: KeyedRows::new(alloc),
            parents: Index::new(alloc),
        }
    }

    /// Puts a listener behind all others, whom so many match.
    ///
    /// # Errors
    ///
    /// Want of memory alone.
    pub fn add(&mut self, row: ListenerRow, count: usize) -> Result<(), AllocError>
        requires { All (λ l. l.row.id < row.id) self.old }
        ensures ok { OnOk result (self.new ≡ self.old ++ record { row = row; count = count } ∷ []) }
        ensures err { OnErr result (self.new ≡ self.old) }
    {
        let id = row.id;
        let parent = Some(u64::from(row.parent));
        self.parents.note(parent, id)?;
        if let Err(error) = self.rows.add(Listener { row, count }) {
            self.parents.forget(parent, id);
            return Err(error);
        }
        Ok(())
    }

    /// Takes a listener out, and says whether it was there.
    pub fn remove(&mut self, id: u32) -> bool
        ensures answer { result ≡ list_any (λ l. l.row.id == id) self.old }
        ensures rows { self.new ≡ filter (λ l. not (l.row.id == id)) self.old }
    {
        let Some(listener) = self.rows.take(id) else {
            return false;
        };
        self.parents
            .forget(Some(u64::from(listener.row.parent)), id);
        true
    }

    /// Takes out all that listen to a publisher or a querier.
    pub fn remove_of(&mut self, parent: u32)
        ensures { self.new ≡ filter (λ l. not (l.row.parent == parent)) self.old }
    {
        while let Some(id) = self.first_of(parent) {
            self.remove(id);
        }
    }

    /// The least id of those that listen to a publisher or a querier.
    fn first_of(&self, parent: u32) -> Option<u32>
        ensures first { MatchOption result (All (λ l. (l.row.parent == parent) ≡ false) self.now)
            (λ id. is_of parent (find (λ l. l.row.id == id) self.now) ≡ true) }
        ensures ascending { Ascend (λ l. l.row.id) self.now }
    {
        let _ascending = self.rows.len();
        self.parents.first_under(u64::from(parent))
    }

    /// Takes all out.
    pub fn clear(&mut self)
        ensures { self.new ≡ [] }
    {
        self.rows.clear();
        self.parents.clear();
    }

    /// How many listeners there are. Their ids ascend.
    pub fn len(&self) -> usize
        ensures len { result ≡ length self.now }
        ensures ascending { Ascend (λ l. l.row.id) self.now }
    {
        self.rows.len()
    }

    /// The listeners with their ids, ascending.
    pub fn iter(&self) -> Iter<'_, u32, Listener>
        ensures rest { map (λ e. e.1) result ≡ self.now }
        ensures runs { ShowsInOrder (deref_pair {K = ℕ} {X = Listener}) }
    {
        self.rows.iter()
    }

    /// The least id above that one, or of all, of those that listen to a publisher or a querier.
    pub fn next_of(&self, parent: u32, after: Option<u32>) -> Option<u32>
        ensures next { result ≡ first_behind after (map (λ l. l.row.id) (filter (λ l. l.row.parent == parent) self.now)) }
        ensures ascending { Ascend (λ l. l.row.id) self.now }
    {
        let _ascending = self.rows.len();
        self.parents.next_of(u64::from(parent), after)
    }

    /// Whether there is a listener of that id.
    pub fn has(&self, id: u32) -> bool
        ensures { result ≡ list_any (λ l. l.row.id == id) self.now }
    {
        self.rows.has(id)
    }

    /// What becomes of the counts where one candidate goes and another one comes, if there are such: of each listener
    /// whose count changes, in ascending id. It looks at those alone whose key meets that of either.
    ///
    /// # Errors
    ///
    /// Want of memory. So is a count above 2^64 - 1.
    pub fn recounts(
        &self,
        goes: Option<Candidate<'_>>,
        comes: Option<Candidate<'_>>,
    ) -> Result<Vec<Recount>, AllocError>
        ensures { IfOk result (λ all. all.items ≡ recounts (seen_if goes.entry) (seen_if comes.entry) self.now) }
    {
        if self.rows.len() == 0 {
            return Ok(Vec::new(self.alloc));
        }
        let ids = self.met(goes, comes)?;
        self.recounts_at(goes, comes, &ids)
    }

    /// Sets counts.
    pub fn recount(&mut self, all: &[Recount])
        ensures { self.new ≡ recounted all.now self.old }
    {
        for one in all {
            self.set_count(one);
        }
    }

    /// The ids of the listeners whose key meets that of one of two candidates.
    fn met(
        &self,
        goes: Option<Candidate<'_>>,
        comes: Option<Candidate<'_>>,
    ) -> Result<Vec<u32>, AllocError>
        requires { Ascend (λ l. l.row.id) self.now }
        ensures { IfOk result (λ ids. ids.items ≡ map (λ l. l.row.id) (filter (λ l. meets_one (seen_if goes.entry) (seen_if comes.entry) l.row) self.now)) }
    {
        let left = self.met_by(goes)?;
        let right = self.met_by(comes)?;
        merge(self.alloc, &left, &right)
    }

    /// The ids of those whose key meets that of a candidate, if there is one.
    fn met_by(&self, candidate: Option<Candidate<'_>>) -> Result<Vec<u32>, AllocError>
        ensures { IfOk result (λ ids. ids.items ≡ map (λ l. l.row.id) (filter (λ l. meets_if (seen_if candidate.entry) l.row) self.now)) }
    {
        let mut ids = Vec::new(self.alloc);
        let Some(candidate) = candidate else {
            return Ok(ids);
        };
        self.rows.matches_into(candidate.key, &mut ids)?;
        Ok(ids)
    }

    /// What becomes of the counts of the listeners of these ids.
    fn recounts_at(
        &self,
        goes: Option<Candidate<'_>>,
        comes: Option<Candidate<'_>>,
        ids: &[u32],
    ) -> Result<Vec<Recount>, AllocError>
        ensures { IfOk result (λ all. all.items ≡ recounts_at (seen_if goes.entry) (seen_if comes.entry) self.now ids.now) }
    {
        let mut all = Vec::new(self.alloc);
        for id in ids {
            push_if(&mut all, self.recount_in(goes, comes, *id)?)?;
        }
        Ok(all)
    }

    /// Of the listener of that id, if there is one and its count changes.
    fn recount_in(
        &self,
        goes: Option<Candidate<'_>>,
        comes: Option<Candidate<'_>>,
        id: u32,
    ) -> Result<Option<Recount>, AllocError>
        ensures { IfOk result (λ one. one ≡ recount_in (seen_if goes.entry) (seen_if comes.entry) (find (λ l. l.row.id == id) self.now)) }
    {
        let Some(listener) = self.rows.find(id) else {
            return Ok(None);
        };
        recount_of(&listener.row, listener.count, goes, comes)
    }

    /// Sets a count.
    fn set_count(&mut self, one: &Recount)
        ensures { self.new ≡ with_count one.now self.old }
    {
        self.rows.set_count(one.id, one.is);
    }
}

/// What becomes of the count of a listener, if it changes.
fn recount_of(
    row: &ListenerRow,
    count: usize,
    goes: Option<Candidate<'_>>,
    comes: Option<Candidate<'_>>,
) -> Result<Option<Recount>, AllocError>
    ensures { IfOk result (λ one. one ≡ recount_in (seen_if goes.entry) (seen_if comes.entry) (Some (record { row = row.now; count = count }))) }
{
    let falls = suits_if(goes, row);
    let rises = suits_if(comes, row);
    if falls == rises {
        return Ok(None);
    }
    let Some(is) = counted(count, rises) else {
        return Err(AllocError);
    };
    Ok(Some(Recount {
        id: row.id,
        was: count,
        is,
    }))
}

/// Whether a listener listens for a candidate, if there is one.
fn suits_if(candidate: Option<Candidate<'_>>, row: &ListenerRow) -> bool
    ensures { result ≡ suits_if (seen_if candidate.entry) row.now }
{
    match candidate {
        Some(candidate) => candidate.suits(row),
        None => false,
    }
}

/// A count with one more, if there is such a number, or with one less.
fn counted(count: usize, rises: bool) -> Option<usize>
    ensures { IfSome result (λ is. is ≡ (if rises then count + 1 else count - 1)) }
{
    if rises {
        count.checked_add(1)
    } else {
        Some(count.saturating_sub(1))
    }
}

/// Puts what there is behind the others.
fn push_if(all: &mut Vec<Recount>, one: Option<Recount>) -> Result<(), AllocError>
    ensures { OnOk result (all.new.items ≡ all.old.items ++ listed one) }
{
    match one {
        Some(one) => Ok(all.push(one)?),
        None => Ok(()),
    }
}

/// Two ascending lists in one.
fn merge(alloc: Global, left: &[u32], right: &[u32]) -> Result<Vec<u32>, AllocError>
    ensures { IfOk result (λ ids. ids.items ≡ merged left.now right.now) }
{
    let mut ids = Vec::new(alloc);
    let mut more_left = left;
    let mut more_right = right;
    while let Some((id, left_rest, right_rest)) = least_front(more_left, more_right) {
        ids.push(id)?;
        more_left = left_rest;
        more_right = right_rest;
    }
    Ok(ids)
}

/// The lesser of the first elements of two lists, and what is behind it.
fn least_front<'a>(left: &'a [u32], right: &'a [u32]) -> Option<(u32, &'a [u32], &'a [u32])>
    ensures { MatchOption result (merged left.now right.now ≡ [])
        (λ front. merged left.now right.now ≡ front.0 ∷ merged front.1.now front.2.now) }
{
    let Some((x, left_rest)) = left.split_first() else {
        return match right.split_first() {
            Some((y, right_rest)) => Some((*y, left, right_rest)),
            None => None,
        };
    };
    let Some((y, right_rest)) = right.split_first() else {
        return Some((*x, left_rest, right));
    };
    if x < y {
        return Some((*x, left_rest, right));
    }
    if y < x {
        return Some((*y, left, right_rest));
    }
    Some((*x, left_rest, right_rest))
}
