//! The open gets, found by their numbers and by what they name.

ghost use Rattle.std.specs.Prelude.{◌≡◌, ◌==◌, [], ◌∷◌, false, not, filter, map, nat_le, is_some, IsOk, IfOk, OnOk, OnErr};
ghost use Rattle.std.specs.Option.{option_copied};
ghost use Rattle.zs_rows.specs.Ascending.{Ascend, placed};
ghost use Rattle.zs_rows.specs.Rows.{EndsOne, is_behind, numbers_of, row_named};
ghost use Rattle.zs_query.specs.GetRows.{row_of_get};
ghost use Rattle.zs_query.specs.Gets.{get_at, without_get, with_get, peek_at, named, replied, less_final, is_due, ends_at, first_row, names};

use crate::ends::Ends;
use crate::get_marks::GetMarks;
use crate::get_row::GetRow;
use crate::open_get::OpenGet;
use crate::outcome::Outcome;
use crate::side::Side;
use crate::timeout::ends_of;
use std::alloc::{AllocError, Global};
use std::marker::Model;
use zs_rows::Rows;
use zs_sample::Reply;

/// The open gets, ascending. A get is found, put in and taken out in steps that go with the logarithm of how many there
/// are, by its number as by its deadline, its cancellation token and its querier.
#[derive(Drop)]
pub(crate) struct GetRows {
    rows: Rows<OpenGet>,
    marks: GetMarks,
}

impl Model for GetRows {
    ghost use Rattle.std.specs.Prelude.{List};
    ghost use Rattle.zs_rows.specs.Rows.{rows_of};
    ghost use Rattle.zs_query.specs.declared.open_get.OpenGet.{OpenGet};
    ghost use Rattle.zs_query.specs.GetRows.{AreIndexed};

    ghost Value = { List OpenGet };

    ghost view = { λ g. rows_of g.rows };

    ghost invariant = { λ g. AreIndexed g.rows g.marks };
}

impl GetRows {
    /// No get.
    pub(crate) fn new(alloc: Global) -> GetRows
        ensures { result ≡ [] }
    {
        GetRows {
            rows: Rows::new(alloc),
            marks: GetMarks::new(alloc),
        }
    }

    /// The get of that number.
    pub(crate) fn find(&self, number: u32) -> Option<&OpenGet>
        ensures { option_copied result ≡ get_at number self.now }
    {
        self.rows.find(number)
    }

    /// Whether there is a get of that number.
    pub(crate) fn has(&self, number: u32) -> bool
        ensures { result ≡ is_some (get_at number self.now) }
    {
        self.rows.has(number)
    }

    /// Puts in a get. At an `Err` all is as it was.
    pub(crate) fn insert(&mut self, get: OpenGet) -> Result<(), AllocError>
        requires { is_some (get_at get.row.number self.old) ≡ false }
        ensures ok { OnOk result (self.new ≡ placed (λ g. g.row.number) get.row.number (get ∷ []) self.old) }
        ensures err { OnErr result (self.new ≡ self.old) }
    {
        let keys = get.row.keys();
        self.marks.note(keys)?;
        if let Err(error) = self.rows.insert(keys.number, get) {
            self.marks.forget(keys);
            return Err(error);
        }
        Ok(())
    }

    /// Takes out the get of that number.
    pub(crate) fn take(&mut self, number: u32) -> Option<OpenGet>
        ensures get { result ≡ get_at number self.old }
        ensures gets { self.new ≡ without_get number self.old }
    {
        let Some(get) = self.rows.remove(number) else {
            return None;
        };
        self.marks.forget(get.row.keys());
        Some(get)
    }

    /// Takes a reply to the get of that number.
    pub(crate) fn reply(
        &mut self,
        alloc: Global,
        number: u32,
        reply: Reply,
    ) -> Result<Outcome, AllocError>
        requires { IsOk reply.result }
        ensures answer { IfOk result (λ outcome. outcome ≡ named (peek_at (get_at number self.old) reply) reply) }
        ensures ok { OnOk result (self.new ≡ with_get number (replied reply) self.old) }
        ensures err { OnErr result (self.new ≡ self.old) }
    {
        let Some(get) = self.rows.find_mut(number) else {
            return Ok(Outcome::Unknown);
        };
        get.take(alloc, reply)
    }

    /// Lets the get of that number wait for the final of a side no longer.
    pub(crate) fn lessen(&mut self, number: u32, side: Side)
        ensures { self.new ≡ with_get number (less_final side) self.old }
    {
        let Some(get) = self.rows.find_mut(number) else {
            return;
        };
        get.take_final(side);
    }

    /// A get whose deadline is at that moment or before it.
    pub(crate) fn first_due(&self, now: u64) -> Option<u32>
        ensures { EndsOne (λ g. g.row.number) (λ g. not (is_due now g)) result self.now }
    {
        match self.marks.deadlines.first_up_to(now) {
            Some(mark) => Some(mark.number),
            None => None,
        }
    }

    /// A get that has the token.
    pub(crate) fn first_of_cancellation_token(&self, cancellation_token: u32) -> Option<u32>
        ensures { EndsOne (λ g. g.row.number) (λ g. not (names cancellation_token g.row.cancellation_token)) result self.now }
    {
        self.marks
            .cancellation_tokens
            .first_under(u64::from(cancellation_token))
    }

    /// A get that the querier asked.
    pub(crate) fn first_of_querier(&self, id: u32) -> Option<u32>
        ensures { EndsOne (λ g. g.row.number) (λ g. not (names id g.row.querier)) result self.now }
    {
        self.marks.queriers.first_under(u64::from(id))
    }

    /// What the gets whose deadline is at that moment or before it hand out at last.
    pub(crate) fn ends(&self, alloc: Global, now: u64) -> Result<Ends, AllocError>
        ensures { IfOk result (λ ends. ends ≡ ends_at now self.now) }
    {
        let due = self.marks.deadlines.numbers_up_to(alloc, now)?;
        ends_of(alloc, &self.rows, &due)
    }

    /// The row of the get with the least number above that one, or with the least of all.
    pub(crate) fn next_behind(&self, after: Option<u32>) -> Option<&GetRow>
        ensures next { option_copied result ≡ first_row (filter (λ g. is_behind after g.row.number) self.now) }
        ensures ascending { Ascend (λ g. g.row.number) self.now }
    {
        match self.rows.next_behind(after) {
            Some((_number, get)) => Some(&get.row),
            None => None,
        }
    }

    /// The same of those gets that have the token.
    pub(crate) fn next_of_cancellation_token(
        &self,
        cancellation_token: u32,
        after: Option<u32>,
    ) -> Option<&GetRow>
        ensures next { option_copied result ≡ first_row (filter (λ g. is_behind after g.row.number) (filter (λ g. names cancellation_token g.row.cancellation_token) self.now)) }
        ensures ascending { Ascend (λ g. g.row.number) self.now }
    {
        let number = self
            .marks
            .cancellation_tokens
            .next_of(u64::from(cancellation_token), after);
        row_of(&self.rows, number)
    }

    /// The same of those gets that the querier asked.
    pub(crate) fn next_of_querier(&self, id: u32, after: Option<u32>) -> Option<&GetRow>
        ensures next { option_copied result ≡ first_row (filter (λ g. is_behind after g.row.number) (filter (λ g. names id g.row.querier) self.now)) }
        ensures ascending { Ascend (λ g. g.row.number) self.now }
    {
        let number = self.marks.queriers.next_of(u64::from(id), after);
        row_of(&self.rows, number)
    }

    /// The numbers of the gets.
    pub(crate) fn numbers(&self, alloc: Global) -> Result<Vec<u32>, AllocError>
        ensures { IfOk result (λ numbers. numbers.items ≡ map (λ g. g.row.number) self.now) }
    {
        numbers_of(alloc, &self.rows)
    }

    /// Takes out all gets.
    pub(crate) fn clear(&mut self)
        ensures { self.new ≡ [] }
    {
        self.rows.clear();
        self.marks.clear();
    }
}

/// The numbers that the gets are filed under, ascending. An error is want of memory alone.
fn numbers_of(alloc: Global, rows: &Rows<OpenGet>) -> Result<Vec<u32>, AllocError>
    ensures { IfOk result (λ numbers. numbers.items ≡ numbers_of rows.now) }
{
    let mut numbers = Vec::with_capacity(alloc, rows.len())?;
    for (number, _get) in rows.iter() {
        numbers.push(*number)?;
    }
    Ok(numbers)
}

/// The row of the get of that number, if there is one.
fn row_of(rows: &Rows<OpenGet>, number: Option<u32>) -> Option<&GetRow>
    ensures { option_copied result ≡ row_of_get (row_named number rows.now) }
{
    let get = rows.find(number?)?;
    Some(&get.row)
}
