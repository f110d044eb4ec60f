//! The open gets: how replies, finals, deadlines, cancellation tokens and queriers reach and end them.
ghost use Rattle.std.specs.Prelude.{◌≡◌, ◌≢◌, [], ◌∷◌, ◌||◌, true, false, not, filter, map, length, slice_get, IsOk, IfOk, OnOk, OnErr};
ghost use Rattle.std.specs.Option.{is_some, option_copied};
ghost use Rattle.zs_wire.specs.declared.request.ConsolidationMode.{ConsolidationMode};
ghost use Rattle.zs_query.specs.Ascending.{Ascend, placed};
ghost use Rattle.zs_query.specs.Gets.{get_at, without_get, with_get, fresh, peek_at, named, replied, error_outcome, final_outcome, after_final, is_due, ends_at, is_behind, first_row, kept_at, names};

use crate::ends::Ends;
use crate::get_row::GetRow;
use crate::get_rows::GetRows;
use crate::open_get::OpenGet;
use crate::outcome::{Outcome, Peek};
use crate::side::Side;
use std::alloc::{AllocError, Global};
use std::marker::Model;
use zs_sample::Reply;

/// The open gets, each with what it keeps of its replies. A get is found by its number, its deadline, its
/// cancellation token and its querier in steps that go with the logarithm of how many there are, and a reply's key by
/// its hash; a tick, a cancellation token and a querier look at the gets that they end alone. No call that answers
/// want of memory has changed anything.
#[derive(Drop)]
pub struct Gets {
    alloc: Global,
    gets: GetRows,
}

impl Model for Gets {
    ghost use Rattle.std.specs.Prelude.{List};
    ghost use Rattle.zs_query.specs.declared.open_get.OpenGet.{OpenGet};

    ghost Value = { List OpenGet };

    ghost view = { λ s. s.gets };
}

impl Gets {
    /// No open get. It takes its memory from `alloc`.
    pub fn new(alloc: Global) -> Gets
        ensures { result ≡ [] }
    {
        Gets {
            alloc,
            gets: GetRows::new(alloc),
        }
    }

    /// Whether a get of that number is open.
    pub fn is_open(&self, number: u32) -> bool
        ensures { result ≡ is_some (get_at number self.now) }
    {
        self.gets.has(number)
    }

    /// Opens a get.
    ///
    /// # Errors
    ///
    /// Want of memory alone.
    pub fn open(&mut self, row: GetRow) -> Result<(), AllocError>
        requires unused { is_some (get_at row.number self.old) ≡ false }
        requires mode { row.mode ≢ ConsolidationMode.Auto }
        requires waits { (row.local_wanted || row.network_wanted) ≡ true }
        ensures ok { OnOk result (self.new ≡ placed (λ g. g.row.number) row.number (fresh row ∷ []) self.old) }
        ensures err { OnErr result (self.new ≡ self.old) }
    {
        self.gets.insert(OpenGet::new(self.alloc, row))
    }

    /// What a reply that holds a sample would come to.
    pub fn peek(&self, number: u32, reply: &Reply) -> Peek
        requires { IsOk reply.now.result }
        ensures { result ≡ peek_at (get_at number self.now) reply.now }
    {
        match self.gets.find(number) {
            Some(get) => get.peek(reply),
            None => Peek::Unknown,
        }
    }

    /// Takes a reply that holds a sample.
    ///
    /// # Errors
    ///
    /// Want of memory alone.
    pub fn reply(&mut self, number: u32, reply: Reply) -> Result<Outcome, AllocError>
        requires { IsOk reply.result }
        ensures answer { IfOk result (λ outcome. outcome ≡ named (peek_at (get_at number self.old) reply) reply) }
        ensures ok { OnOk result (self.new ≡ with_get number (replied reply) self.old) }
        ensures err { OnErr result (self.new ≡ self.old) }
    {
        self.gets.reply(self.alloc, number, reply)
    }

    /// Takes a reply that holds an error.
    ///
    /// # Errors
    ///
    /// Want of memory alone.
    pub fn error(&mut self, number: u32, error: Reply) -> Result<Outcome, AllocError>
        ensures answer { IfOk result (λ outcome. outcome ≡ error_outcome (get_at number self.old) error) }
        ensures same { self.new ≡ self.old }
    {
        if self.gets.find(number).is_none() {
            return Ok(Outcome::Unknown);
        }
        Ok(Outcome::Handed(error))
    }

    /// Takes the final of a side.
    ///
    /// # Errors
    ///
    /// Want of memory alone.
    pub fn final_in(&mut self, number: u32, side: Side) -> Result<Outcome, AllocError>
        ensures answer { IfOk result (λ outcome. outcome ≡ final_outcome side (get_at number self.old)) }
        ensures ok { IfOk result (λ outcome. self.new ≡ after_final outcome side number self.old) }
        ensures err { OnErr result (self.new ≡ self.old) }
    {
        let Some(get) = self.gets.find(number) else {
            return Ok(Outcome::Unknown);
        };
        if !get.row.wants(side) {
            return Ok(Outcome::Repeated);
        }
        if get.row.wants(side.other()) {
            self.gets.lessen(number, side);
            return Ok(Outcome::Counted);
        }
        let room = Vec::with_capacity(self.alloc, get.kept.len())?;
        let Some(ended) = self.gets.take(number) else {
            return Ok(Outcome::Unknown);
        };
        Ok(Outcome::Ended(ended.into_kept().into_replies(room)))
    }

    /// What the final of a side would come to. It hands out copies.
    ///
    /// # Errors
    ///
    /// Want of memory alone.
    pub fn peek_final(&self, number: u32, side: Side) -> Result<Outcome, AllocError>
        ensures { IfOk result (λ outcome. outcome ≡ final_outcome side (get_at number self.now)) }
    {
        match self.gets.find(number) {
            Some(get) => get.peek_final(self.alloc, side),
            None => Ok(Outcome::Unknown),
        }
    }

    /// Takes the final of a side, and hands nothing out.
    pub fn note_final(&mut self, number: u32, side: Side)
        ensures { self.new ≡ after_final (final_outcome side (get_at number self.old)) side number self.old }
    {
        let Some(get) = self.gets.find(number) else {
            return;
        };
        if !get.row.wants(side) {
            return;
        }
        if get.row.wants(side.other()) {
            self.gets.lessen(number, side);
            return;
        }
        let _open = end_get(&mut self.gets, number);
    }

    /// Ends each get whose deadline is at that moment or before it. Each hands out what it kept, and then the error
    /// `Timeout`.
    ///
    /// # Errors
    ///
    /// Want of memory alone.
    pub fn tick(&mut self, now: u64) -> Result<Ends, AllocError>
        ensures answer { IfOk result (λ ends. ends ≡ ends_at now self.old) }
        ensures ok { OnOk result (self.new ≡ filter (λ g. not (is_due now g)) self.old) }
        ensures err { OnErr result (self.new ≡ self.old) }
    {
        let ends = self.peek_tick(now)?;
        self.note_tick(now);
        Ok(ends)
    }

    /// What a tick would answer.
    ///
    /// # Errors
    ///
    /// Want of memory alone.
    pub fn peek_tick(&self, now: u64) -> Result<Ends, AllocError>
        ensures { IfOk result (λ ends. ends ≡ ends_at now self.now) }
    {
        self.gets.ends(self.alloc, now)
    }

    /// Ends each get whose deadline is at that moment or before it, and hands nothing out.
    pub fn note_tick(&mut self, now: u64)
        ensures { self.new ≡ filter (λ g. not (is_due now g)) self.old }
    {
        'gets: while let Some(number) = self.gets.first_due(now) {
            let _open = end_get(&mut self.gets, number);
        }
    }

    /// The numbers of the open gets, ascending.
    ///
    /// # Errors
    ///
    /// Want of memory alone.
    pub fn numbers(&self) -> Result<Vec<u32>, AllocError>
        ensures { IfOk result (λ numbers. numbers.items ≡ map (λ g. g.row.number) self.now) }
    {
        self.gets.numbers(self.alloc)
    }

    /// The row of the open get with the least number above that one, or with the least of all.
    pub fn next_open(&self, after: Option<u32>) -> Option<&GetRow>
        ensures next { option_copied result ≡ first_row (filter (λ g. is_behind after g.row.number) self.now) }
        ensures ascending { Ascend (λ g. g.row.number) self.now }
    {
        self.gets.next_behind(after)
    }

    /// The row of the open get that has the cancellation token, with the least number above that one, or with the least
    /// of all. It looks at no other gets.
    pub fn next_of_cancellation_token(
        &self,
        cancellation_token: u32,
        after: Option<u32>,
    ) -> Option<&GetRow>
        ensures next { option_copied result ≡ first_row (filter (λ g. is_behind after g.row.number) (filter (λ g. names cancellation_token g.row.cancellation_token) self.now)) }
        ensures ascending { Ascend (λ g. g.row.number) self.now }
    {
        self.gets
            .next_of_cancellation_token(cancellation_token, after)
    }

    /// The row of the open get that the querier asked, with the least number above that one, or with the least of all.
    /// It looks at no other gets.
    pub fn next_of_querier(&self, id: u32, after: Option<u32>) -> Option<&GetRow>
        ensures next { option_copied result ≡ first_row (filter (λ g. is_behind after g.row.number) (filter (λ g. names id g.row.querier) self.now)) }
        ensures ascending { Ascend (λ g. g.row.number) self.now }
    {
        self.gets.next_of_querier(id, after)
    }

    /// How many replies the end of a get by its finals would hand out, 0 where it isn't open.
    pub fn kept(&self, number: u32) -> usize
        ensures { result ≡ length (kept_at (get_at number self.now)) }
    {
        match self.gets.find(number) {
            Some(get) => get.kept.len(),
            None => 0,
        }
    }

    /// The reply at that place of those that the end of a get by its finals would hand out.
    pub fn kept_reply(&self, number: u32, index: usize) -> Option<&Reply>
        ensures { option_copied result ≡ slice_get (kept_at (get_at number self.now)) index }
    {
        let Some(get) = self.gets.find(number) else {
            return None;
        };
        get.kept.get(index)
    }

    /// Ends a get, and says whether it was open.
    pub fn cancel(&mut self, number: u32) -> bool
        ensures answer { result ≡ is_some (get_at number self.old) }
        ensures gets { self.new ≡ without_get number self.old }
    {
        end_get(&mut self.gets, number)
    }

    /// Ends each get that the querier asked.
    pub fn end_querier(&mut self, id: u32)
        ensures { self.new ≡ filter (λ g. not (names id g.row.querier)) self.old }
    {
        'gets: while let Some(number) = self.gets.first_of_querier(id) {
            let _open = end_get(&mut self.gets, number);
        }
    }

    /// Ends each get that has the cancellation token.
    pub fn end_cancelled_by(&mut self, cancellation_token: u32)
        ensures { self.new ≡ filter (λ g. not (names cancellation_token g.row.cancellation_token)) self.old }
    {
        'gets: while let Some(number) = self.gets.first_of_cancellation_token(cancellation_token) {
            let _open = end_get(&mut self.gets, number);
        }
    }

    /// Ends all gets.
    pub fn close(&mut self)
        ensures { self.new ≡ [] }
    {
        self.gets.clear();
    }
}

/// Ends a get, and says whether it was open.
fn end_get(gets: &mut GetRows, number: u32) -> bool
    ensures answer { result ≡ is_some (get_at number gets.old) }
    ensures gets { gets.new ≡ without_get number gets.old }
{
    let ended = gets.take(number);
    let was_open = ended.is_some();
    drop(ended);
    was_open
}
