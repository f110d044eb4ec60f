//! The open liveliness gets, found by their numbers and by what they name.

ghost use Rattle.std.specs.Prelude.{◌≡◌, [], true, false, not, map, IfOk, OnOk, OnErr};
ghost use Rattle.zs_rows.specs.Ascending.{Ascend};
ghost use Rattle.zs_rows.specs.Rows.{EndsOne, numbers_of};
ghost use Rattle.zs_rows.specs.Index.{under};
ghost use Rattle.zs_liveliness.specs.Asking.{keys_of};
ghost use Rattle.zs_liveliness.specs.LivelinessGets.{is_asking, with_liveliness_get, without_liveliness_get, is_over, over_at, is_own, numbers_with};

use crate::asking_marks::{AskingKeys, AskingMarks};
use crate::liveliness_get::LivelinessGet;
use std::alloc::{AllocError, Global};
use std::marker::Model;
use zs_rows::{Index, Numbers, Rows};

/// The open gets, ascending. A get is found, put in and taken out in steps that go with the logarithm of how many there
/// are, by its number as by its deadline and its token.
#[derive(Drop)]
pub(crate) struct AskingGets {
    gets: Rows<LivelinessGet>,
    marks: AskingMarks,
}

impl Model for AskingGets {
    ghost use Rattle.std.specs.Prelude.{List};
    ghost use Rattle.zs_rows.specs.Rows.{rows_of};
    ghost use Rattle.zs_liveliness.specs.declared.liveliness_get.LivelinessGet.{LivelinessGet};
    ghost use Rattle.zs_liveliness.specs.Asking.{AreIndexed};

    ghost Value = { List LivelinessGet };

    ghost view = { λ a. rows_of a.gets };

    ghost invariant = { λ a. AreIndexed a.gets a.marks };
}

impl AskingGets {
    /// No get.
    pub(crate) fn new(alloc: Global) -> AskingGets
        ensures { result ≡ [] }
    {
        AskingGets {
            gets: Rows::new(alloc),
            marks: AskingMarks::new(alloc),
        }
    }

    /// Whether a get of that number is open.
    pub(crate) fn has(&self, number: u32) -> bool
        ensures { result ≡ is_asking number self.now }
    {
        self.gets.has(number)
    }

    /// Puts in a get whose number none has. At an `Err` all is as it was.
    pub(crate) fn insert(&mut self, get: LivelinessGet) -> Result<(), AllocError>
        requires { is_asking get.number self.old ≡ false }
        ensures ok { OnOk result (self.new ≡ with_liveliness_get get self.old) }
        ensures err { OnErr result (self.new ≡ self.old) }
    {
        let keys = keys_of(&get);
        self.marks.note(keys)?;
        if let Err(error) = self.gets.insert(keys.number, get) {
            self.marks.forget(keys);
            return Err(error);
        }
        Ok(())
    }

    /// Puts a get in the place of the one of its number. At an `Err` all is as it was.
    pub(crate) fn write_over(&mut self, get: LivelinessGet) -> Result<(), AllocError>
        requires { is_asking get.number self.old ≡ true }
        ensures ok { OnOk result (self.new ≡ with_liveliness_get get self.old) }
        ensures err { OnErr result (self.new ≡ self.old) }
    {
        let number = get.number;
        let Some(old) = self.gets.find(number) else {
            unreachable!()
        };
        self.marks.renew(keys_of(old), keys_of(&get))?;
        let Some(place) = self.gets.find_mut(number) else {
            unreachable!()
        };
        *place = get;
        Ok(())
    }

    /// Takes out the get of that number, if it is open.
    pub(crate) fn end(&mut self, number: u32)
        ensures { self.new ≡ without_liveliness_get number self.old }
    {
        let Some(get) = self.gets.remove(number) else {
            return;
        };
        self.marks.forget(keys_of(&get));
    }

    /// A get whose deadline is reached.
    pub(crate) fn first_over(&self, now: u64) -> Option<u32>
        ensures { EndsOne (λ g. g.number) (λ g. not (is_over now g)) result self.now }
    {
        match self.marks.deadlines.first_up_to(now) {
            Some(mark) => Some(mark.number),
            None => None,
        }
    }

    /// A get that has the token.
    pub(crate) fn first_of_cancellation_token(&self, cancellation_token: u32) -> Option<u32>
        ensures { EndsOne (λ g. g.number) (λ g. not (is_own cancellation_token g.cancellation_token)) result self.now }
    {
        self.marks
            .cancellation_tokens
            .first_under(u64::from(cancellation_token))
    }

    /// The numbers of those whose deadline is reached.
    pub(crate) fn over_at(&self, alloc: Global, now: u64) -> Result<Vec<u32>, AllocError>
        ensures { IfOk result (λ numbers. numbers.items ≡ over_at now self.now) }
    {
        let over = self.marks.deadlines.numbers_up_to(alloc, now)?;
        list_of(alloc, &over)
    }

    /// The numbers of those that have a cancellation token.
    pub(crate) fn numbers_with(
        &self,
        alloc: Global,
        cancellation_token: u32,
    ) -> Result<Vec<u32>, AllocError>
        ensures { IfOk result (λ numbers. numbers.items ≡ numbers_with cancellation_token self.now) }
    {
        numbers_under(
            alloc,
            &self.marks.cancellation_tokens,
            u64::from(cancellation_token),
        )
    }

    /// The numbers of all.
    pub(crate) fn numbers(&self, alloc: Global) -> Result<Vec<u32>, AllocError>
        ensures { IfOk result (λ numbers. numbers.items ≡ map (λ g. g.number) self.now) }
    {
        numbers_of(alloc, &self.gets)
    }

    /// Takes out all.
    pub(crate) fn clear(&mut self)
        ensures { self.new ≡ [] }
    {
        self.gets.clear();
        self.marks.clear();
    }
}

/// A get's number, and the keys under which it is found.
fn keys_of(get: &LivelinessGet) -> AskingKeys
    ensures { result ≡ keys_of get.now }
{
    AskingKeys {
        number: get.number,
        deadline: get.deadline,
        cancellation_token: wide(get.cancellation_token),
    }
}

/// The number as a key of an index.
fn wide(number: Option<u32>) -> Option<u64>
    ensures { result ≡ number }
{
    match number {
        Some(number) => Some(u64::from(number)),
        None => None,
    }
}

/// The numbers of all rows, ascending.
fn numbers_of(alloc: Global, rows: &Rows<LivelinessGet>) -> Result<Vec<u32>, AllocError>
    ensures { IfOk result (λ numbers. numbers.items ≡ numbers_of rows.now) }
{
    let mut numbers = Vec::with_capacity(alloc, rows.len())?;
    for (number, _get) in rows.iter() {
        numbers.push(*number)?;
    }
    Ok(numbers)
}

/// The numbers of a set, ascending.
fn list_of(alloc: Global, numbers: &Numbers) -> Result<Vec<u32>, AllocError>
    ensures list { IfOk result (λ list. list.items ≡ numbers.now) }
    ensures ascending { Ascend (λ n. n) numbers.now }
{
    let mut list = Vec::with_capacity(alloc, numbers.len())?;
    for number in numbers.iter() {
        list.push(*number)?;
    }
    Ok(list)
}

/// The numbers under a key, ascending.
fn numbers_under(alloc: Global, index: &Index, key: u64) -> Result<Vec<u32>, AllocError>
    ensures numbers { IfOk result (λ numbers. numbers.items ≡ under key index.now) }
    ensures ascending { Ascend (λ n. n) (under key index.now) }
{
    let mut numbers = Vec::new(alloc);
    let mut after = None;
    'numbers: while let Some(number) = index.next_of(key, after) {
        numbers.push(number)?;
        after = Some(number);
    }
    Ok(numbers)
}
