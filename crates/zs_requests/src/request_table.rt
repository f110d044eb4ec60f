//! The unfinished query values of a session, which it numbers itself.
ghost use Rattle.std.specs.Prelude.{◌≡◌, ◌+◌, ◌<◌, ◌≤◌, [], length, OnOk, OnErr};
ghost use Rattle.zs_requests.specs.Unfinished.{value_at, finished, finished_as, of_same_request, IsFound};
ghost use Rattle.zs_requests.specs.RequestTable.{with_handed, with_shared, with_finished};

use crate::request_row::RequestRow;
use crate::requests::{Finished, Finishing, Requests};
use std::alloc::{AllocError, Global};
use std::marker::Model;

/// The unfinished query values of a session, with the counter of their numbers. No call that answers want of memory has
/// changed anything.
#[derive(Drop)]
pub struct RequestTable {
    requests: Requests,
    next: u32,
}

impl Model for RequestTable {
    ghost use Rattle.std.specs.Prelude.{◌<◌};
    ghost use Rattle.std.specs.List.{AllByRecursion};
    ghost use Rattle.zs_requests.specs.RequestTable.{Handing};

    ghost Value = { Handing };

    ghost view = { λ t. record { handed = t.requests.handed; values = t.requests.values; next = t.next } };

    ghost invariant = { λ t. AllByRecursion (λ v. v.value < t.next) t.requests.values };
}

impl RequestTable {
    /// No unfinished value. The first one draws the number 0.
    pub fn new(alloc: Global) -> RequestTable
        ensures { result ≡ record { handed = 0; values = []; next = 0 } }
    {
        RequestTable {
            requests: Requests::new(alloc),
            next: 0,
        }
    }

    /// The number that the next value draws.
    pub fn next(&self) -> u32
        ensures { result ≡ self.now.next }
    {
        self.next
    }

    /// Hands a request out: it draws a value for each queryable, in their order. For no queryable nothing happens.
    ///
    /// # Errors
    ///
    /// Want of memory alone. So is a request after 2^64 - 1 others.
    pub fn hand(&mut self, row: RequestRow, queryables: &[u32]) -> Result<(), AllocError>
        requires { self.old.next + length queryables.now ≤ 4294967295 }
        ensures ok { OnOk result (self.new ≡ with_handed row queryables.now self.old) }
        ensures err { OnErr result (self.new ≡ self.old) }
    {
        if queryables.is_empty() {
            return Ok(());
        }
        self.requests.hand(row, queryables, self.next)?;
        self.next += queryables.len() as u32;
        Ok(())
    }

    /// Draws one value more of the request and the queryable of an unfinished value. For another one nothing happens.
    ///
    /// # Errors
    ///
    /// Want of memory alone.
    pub fn share(&mut self, value: u32) -> Result<(), AllocError>
        requires { self.old.next < 4294967295 }
        ensures ok { OnOk result (self.new ≡ with_shared value self.old) }
        ensures err { OnErr result (self.new ≡ self.old) }
    {
        if self.requests.share(value, self.next)? {
            self.next += 1;
        }
        Ok(())
    }

    /// Gives a value back.
    pub fn finish(&mut self, value: u32) -> Finished
        ensures answer { result ≡ finished (value_at value self.old.values) self.old.values }
        ensures values { self.new ≡ with_finished value self.old }
    {
        self.requests.finish(value)
    }

    /// What giving a value back would come to.
    pub fn peek_finish(&self, value: u32) -> Finishing<'_>
        ensures { finished_as result ≡ finished (value_at value self.now.values) self.now.values }
    {
        self.requests.peek_finish(value)
    }

    /// The request and the queryable of an unfinished value.
    pub fn find(&self, value: u32) -> Option<(&RequestRow, u32)>
        ensures { IsFound (value_at value self.now.values) result }
    {
        self.requests.find(value)
    }

    /// How many unfinished values the request of that value has.
    pub fn left(&self, value: u32) -> u32
        ensures { result ≡ length (of_same_request (value_at value self.now.values) self.now.values) }
    {
        self.requests.left(value)
    }
}
