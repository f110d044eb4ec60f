//! The open gets of a session, which it numbers itself, and the moment that their deadlines are measured by.
ghost use Rattle.std.specs.Prelude.{◌≡◌, ◌≢◌, ◌+◌, ◌<◌, ◌≤◌, [], length, true, IsOk, OnOk, OnErr};
ghost use Rattle.zs_wire.specs.declared.request.ConsolidationMode.{ConsolidationMode};
ghost use Rattle.zs_query.specs.Asked.{waits};
ghost use Rattle.zs_query.specs.GetTable.{with_asked, with_reply, with_final, with_local_final, at_moment, without_querier, without_cancellation_token, all_ended};
ghost use Rattle.zs_requests.specs.RequestTable.{with_handed};

use crate::get_row::GetRow;
use crate::gets::Gets;
use crate::outcome::Outcome;
use crate::side::Side;
use std::alloc::{AllocError, Global};
use std::marker::Model;
use zs_requests::{RequestRow, RequestTable};
use zs_sample::Reply;

/// The open gets of a session, with the counter of their numbers and the moment.
#[derive(Drop)]
pub struct GetTable {
    gets: Gets,
    next: u32,
    moment: u64,
}

impl Model for GetTable {
    ghost use Rattle.std.specs.Prelude.{◌<◌};
    ghost use Rattle.std.specs.List.{AllByRecursion};
    ghost use Rattle.zs_query.specs.GetTable.{Asking};

    ghost Value = { Asking };

    ghost view = { λ t. record { gets = t.gets; next = t.next; moment = t.moment } };

    ghost invariant = { λ t. AllByRecursion (λ g. g.row.number < t.next) t.gets };
}

impl GetTable {
    /// No open get, at moment 0. The first get draws that number.
    pub fn new(alloc: Global, first: u32) -> GetTable
        ensures { result ≡ record { gets = []; next = first; moment = 0 } }
    {
        GetTable {
            gets: Gets::new(alloc),
            next: first,
            moment: 0,
        }
    }

    /// The open gets.
    pub fn gets(&self) -> &Gets
        ensures { result.now ≡ self.now.gets }
    {
        &self.gets
    }

    /// The number that the next get draws.
    pub fn next(&self) -> u32
        ensures { result ≡ self.now.next }
    {
        self.next
    }

    /// The greatest moment that has come.
    pub fn moment(&self) -> u64
        ensures { result ≡ self.now.moment }
    {
        self.moment
    }

    /// Opens a get with the next number, unless it waits for nobody. At an `Err` all is as it was.
    pub fn ask(&mut self, row: GetRow) -> Result<(), AllocError>
        requires number { row.number ≡ self.old.next }
        requires left { self.old.next < 4294967295 }
        requires mode { row.mode ≢ ConsolidationMode.Auto }
        ensures ok { OnOk result (self.new ≡ with_asked row self.old) }
        ensures err { OnErr result (self.new ≡ self.old) }
    {
        if !waits(&row) {
            self.next += 1;
            return Ok(());
        }
        self.gets.open(row)?;
        self.next += 1;
        Ok(())
    }

    /// Opens a get with the next number, and hands its request to queryables of this session. At an `Err` both tables are
    /// as they were.
    pub fn ask_of(
        &mut self,
        row: GetRow,
        requests: &mut RequestTable,
        request: RequestRow,
        queryables: &[u32],
    ) -> Result<(), AllocError>
        requires number { row.number ≡ self.old.next }
        requires left { self.old.next < 4294967295 }
        requires mode { row.mode ≢ ConsolidationMode.Auto }
        requires waits { waits row ≡ true }
        requires values { requests.old.next + length queryables.now ≤ 4294967295 }
        ensures gets { OnOk result (self.new ≡ with_asked row self.old) }
        ensures requests { OnOk result (requests.new ≡ with_handed request queryables.now requests.old) }
        ensures same_gets { OnErr result (self.new ≡ self.old) }
        ensures same_requests { OnErr result (requests.new ≡ requests.old) }
    {
        let number = row.number;
        self.gets.open(row)?;
        if let Err(error) = requests.hand(request, queryables) {
            let _ = self.gets.cancel(number);
            return Err(error);
        }
        self.next += 1;
        Ok(())
    }

    /// Takes a reply that holds a sample. At an `Err` all is as it was.
    pub fn take(&mut self, number: u32, reply: Reply) -> Result<(), AllocError>
        requires { IsOk reply.result }
        ensures ok { OnOk result (self.new ≡ with_reply number reply self.old) }
        ensures err { OnErr result (self.new ≡ self.old) }
    {
        let outcome = self.gets.reply(number, reply)?;
        discard(outcome);
        Ok(())
    }

    /// Takes the network's final.
    pub fn note_final(&mut self, number: u32)
        ensures { self.new ≡ with_final number self.old }
    {
        self.gets.note_final(number, Side::Network);
    }

    /// Takes the final of this session.
    pub fn note_local_final(&mut self, number: u32)
        ensures { self.new ≡ with_local_final number self.old }
    {
        self.gets.note_final(number, Side::Local);
    }

    /// Ends the gets whose deadline is reached.
    pub fn advance(&mut self, moment: u64)
        ensures { self.new ≡ at_moment moment self.old }
    {
        self.gets.note_tick(moment);
        self.moment = self.moment.max(moment);
    }

    /// Ends the gets that a querier asked, and hands nothing out.
    pub fn end_querier(&mut self, id: u32)
        ensures { self.new ≡ without_querier id self.old }
    {
        self.gets.end_querier(id);
    }

    /// Ends the gets that have a cancellation token, and hands nothing out.
    pub fn end_cancelled_by(&mut self, cancellation_token: u32)
        ensures { self.new ≡ without_cancellation_token cancellation_token self.old }
    {
        self.gets.end_cancelled_by(cancellation_token);
    }

    /// Ends all gets.
    pub fn close(&mut self)
        ensures { self.new ≡ all_ended self.old }
    {
        self.gets.close();
    }
}

/// Whether a get waits for anyone.
fn waits(row: &GetRow) -> bool
    ensures { result ≡ waits row.now }
{
    row.local_wanted || row.network_wanted
}

/// Lets go of what a reply came to.
fn discard(_outcome: Outcome) {}
