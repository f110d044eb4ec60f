//! The unfinished query values, filed under their numbers and under their requests.
ghost use Rattle.std.specs.Prelude.{◌≡◌, ◌≢◌, ◌+◌, ◌<◌, ◌≤◌, [], length, false, IfOk, OnOk, OnErr, if◌then◌else◌};
ghost use Rattle.std.specs.Option.{is_some};
ghost use Rattle.zs_requests.specs.Unfinished.{value_at, are_used, with_request, shared, finished, finished_as, without_value, of_same_request, IsFound, AreInOrder};

use crate::query_value::QueryValue;
use crate::request_row::RequestRow;
use crate::values::{count_of, find_value, has_other, is_used, make_share, make_values};
use std::alloc::{AllocError, Global};
use std::marker::Model;
use zs_rows::{Index, Rows};

/// What giving a query value back comes to.
#[derive(Debug, Drop)]
pub enum Finished {
    /// There was no such unfinished value.
    Unknown,
    /// Another value of the same request is still unfinished.
    MoreLeft,
    /// It was the last value of this request.
    Last(RequestRow),
}

/// What giving a query value back would come to.
#[derive(Debug, Clone, Copy)]
pub enum Finishing<'a> {
    /// There is no such unfinished value.
    Unknown,
    /// Another value of the same request is unfinished too.
    MoreLeft,
    /// It is the last value of this request.
    Last(&'a RequestRow),
}

/// The query values that were handed out and not given back, each with its request and queryable. A request is told
/// apart from others by when it was handed out, and not by its number. A value is found, put in and given back in steps
/// that go with the logarithm of how many there are. No call that answers want of memory has changed anything.
#[derive(Drop)]
pub struct Requests {
    alloc: Global,
    handed: u64,
    values: Rows<QueryValue>,
    /// The numbers of the values of each request.
    requests: Index,
}

impl Model for Requests {
    ghost use Rattle.zs_rows.specs.Rows.{rows_of};
    ghost use Rattle.zs_requests.specs.Unfinished.{Unfinished};
    ghost use Rattle.zs_requests.specs.ValueRows.{AreFiled};

    ghost Value = { Unfinished };

    ghost view = { λ r. record { handed = r.handed; values = rows_of r.values } };

    ghost invariant = { λ r. AreFiled r.handed r.values r.requests };
}

impl Requests {
    /// No unfinished value. It takes its memory from `alloc`.
    pub fn new(alloc: Global) -> Requests
        ensures { result ≡ record { handed = 0; values = [] } }
    {
        Requests {
            alloc,
            handed: 0,
            values: Rows::new(alloc),
            requests: Index::new(alloc),
        }
    }

    /// Whether an unfinished value has a number from `first` on, and below `end`.
    pub fn are_used(&self, first: u32, end: u32) -> bool
        ensures { result ≡ are_used first end self.now.values }
    {
        is_used(&self.values, first, end)
    }

    /// Takes a request that is handed out to queryables, each with a query value of its own, numbered from `first` on.
    ///
    /// # Errors
    ///
    /// Want of memory alone. So is a request after 2^64 - 1 others.
    pub fn hand(
        &mut self,
        request: RequestRow,
        queryables: &[u32],
        first: u32,
    ) -> Result<(), AllocError>
        requires some { queryables.now ≢ [] }
        requires numbers { first + length queryables.now ≤ 4294967295 }
        requires unused { are_used first (first + length queryables.now) self.old.values ≡ false }
        ensures ok { OnOk result (self.new ≡ with_request first request queryables.now self.old) }
        ensures err { OnErr result (self.new ≡ self.old) }
        ensures apart { AreInOrder self.old.handed self.old.values }
    {
        let Some(handed) = self.handed.checked_add(1) else {
            return Err(AllocError);
        };
        let made = make_values(self.alloc, request, self.handed, queryables, first)?;
        let end = first + made.len() as u32;
        self.requests.note_all(self.handed, first, end)?;
        if let Err(error) = self.values.insert_all(first, made) {
            self.requests.forget_all(self.handed, first, end);
            return Err(error);
        }
        self.handed = handed;
        Ok(())
    }

    /// Lets `new` be one more value of the request and the queryable of `value`, and says whether there is such a value.
    ///
    /// # Errors
    ///
    /// Want of memory alone.
    pub fn share(&mut self, value: u32, new: u32) -> Result<bool, AllocError>
        requires number { new < 4294967295 }
        requires unused { are_used new (new + 1) self.old.values ≡ false }
        ensures answer { IfOk result (λ there. there ≡ is_some (value_at value self.old.values)) }
        ensures ok { OnOk result (self.new ≡ record self.old { values = shared new (value_at value self.old.values) self.old.values }) }
        ensures err { OnErr result (self.new ≡ self.old) }
    {
        let Some(found) = find_value(&self.values, value) else {
            return Ok(false);
        };
        let made = make_share(self.alloc, found, new)?;
        let request = made.request;
        self.requests.note(Some(request), new)?;
        if let Err(error) = self.values.insert(new, made) {
            self.requests.forget(Some(request), new);
            return Err(error);
        }
        Ok(true)
    }

    /// Gives a value back.
    pub fn finish(&mut self, value: u32) -> Finished
        ensures answer { result ≡ finished (value_at value self.old.values) self.old.values }
        ensures values { self.new ≡ record self.old { values = without_value value self.old.values } }
    {
        let Some(ended) = self.values.remove(value) else {
            return Finished::Unknown;
        };
        self.requests.forget(Some(ended.request), value);
        let more_left = self.requests.first_under(ended.request).is_some();
        finished_of(ended, more_left)
    }

    /// What giving a value back would come to.
    pub fn peek_finish(&self, value: u32) -> Finishing<'_>
        ensures { finished_as result ≡ finished (value_at value self.now.values) self.now.values }
    {
        let Some(found) = find_value(&self.values, value) else {
            return Finishing::Unknown;
        };
        finishing_of(found, has_other(&self.requests, found))
    }

    /// The request and the queryable of an unfinished value.
    pub fn find(&self, value: u32) -> Option<(&RequestRow, u32)>
        ensures { IsFound (value_at value self.now.values) result }
    {
        let Some(found) = find_value(&self.values, value) else {
            return None;
        };
        Some((&found.row, found.queryable))
    }

    /// How many unfinished values the request of that value has.
    pub fn left(&self, value: u32) -> u32
        ensures { result ≡ length (of_same_request (value_at value self.now.values) self.now.values) }
    {
        let Some(found) = find_value(&self.values, value) else {
            return 0;
        };
        count_of(&self.values, found.request)
    }
}

/// What the end of this value comes to. The request is handed back with its last value alone.
fn finished_of(ended: QueryValue, more_left: bool) -> Finished
    ensures { result ≡ (if more_left then Finished.MoreLeft else Finished.Last ended.row) }
{
    if more_left {
        Finished::MoreLeft
    } else {
        Finished::Last(ended.row)
    }
}

/// What the end of this value would come to. The value and its request stay where they are.
fn finishing_of(value: &QueryValue, more_left: bool) -> Finishing<'_>
    ensures { finished_as result ≡ (if more_left then Finished.MoreLeft else Finished.Last value.now.row) }
{
    if more_left {
        Finishing::MoreLeft
    } else {
        Finishing::Last(&value.row)
    }
}
