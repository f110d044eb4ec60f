//! The indexes that find open liveliness gets by what they name.

ghost use Rattle.std.specs.Prelude.{◌≡◌, [], OnOk, OnErr};
ghost use Rattle.zs_rows.specs.Index.{Notes};
ghost use Rattle.zs_liveliness.specs.Asking.{is_same_key, StandsUnder, LeavesFor, NotesAll, ForgetsAll, StandsAll, MovesAll, AreSame, IsFree};

use std::alloc::{AllocError, Global};
use zs_rows::Index;

/// A get's number, and the keys under which it is found.
#[derive(Clone, Copy, Drop)]
pub(crate) struct AskingKeys {
    pub(crate) number: u32,
    pub(crate) deadline: u64,
    pub(crate) cancellation_token: Option<u64>,
}

/// The numbers of the open gets by deadline and by cancellation token.
#[derive(Drop)]
pub(crate) struct AskingMarks {
    pub(crate) deadlines: Index,
    pub(crate) cancellation_tokens: Index,
}

impl AskingMarks {
    /// No mark.
    pub(crate) fn new(alloc: Global) -> AskingMarks
        ensures { result ≡ record { deadlines = []; cancellation_tokens = [] } }
    {
        AskingMarks {
            deadlines: Index::new(alloc),
            cancellation_tokens: Index::new(alloc),
        }
    }

    /// Puts a get under its keys. At an `Err` the marks are as they were.
    pub(crate) fn note(&mut self, keys: AskingKeys) -> Result<(), AllocError>
        requires { IsFree keys.number self.old }
        ensures ok { OnOk result (NotesAll keys self.old self.new) }
        ensures err { OnErr result (AreSame self.old self.new) }
    {
        self.deadlines.note(Some(keys.deadline), keys.number)?;
        if let Err(error) = self
            .cancellation_tokens
            .note(keys.cancellation_token, keys.number)
        {
            self.deadlines.forget(Some(keys.deadline), keys.number);
            return Err(error);
        }
        Ok(())
    }

    /// Takes a get from under its keys.
    pub(crate) fn forget(&mut self, keys: AskingKeys)
        ensures { ForgetsAll keys self.old self.new }
    {
        self.deadlines.forget(Some(keys.deadline), keys.number);
        self.cancellation_tokens
            .forget(keys.cancellation_token, keys.number);
    }

    /// Puts a get under other keys than it stands under. At an `Err` the marks are as they were.
    pub(crate) fn renew(&mut self, was: AskingKeys, is: AskingKeys) -> Result<(), AllocError>
        requires same { is.number ≡ was.number }
        requires stands { StandsAll was self.old }
        ensures ok { OnOk result (MovesAll is self.old self.new) }
        ensures err { OnErr result (AreSame self.old self.new) }
    {
        let before = Some(was.deadline);
        let after = Some(is.deadline);
        note_other(&mut self.deadlines, before, after, was.number)?;
        if let Err(error) = note_other(
            &mut self.cancellation_tokens,
            was.cancellation_token,
            is.cancellation_token,
            was.number,
        ) {
            forget_other(&mut self.deadlines, after, before, was.number);
            return Err(error);
        }
        forget_other(&mut self.deadlines, before, after, was.number);
        forget_other(
            &mut self.cancellation_tokens,
            was.cancellation_token,
            is.cancellation_token,
            was.number,
        );
        Ok(())
    }

    /// Takes out all marks.
    pub(crate) fn clear(&mut self)
        ensures { self.new ≡ record { deadlines = []; cancellation_tokens = [] } }
    {
        self.deadlines.clear();
        self.cancellation_tokens.clear();
    }
}

/// Puts a number under a key too, unless it is the one that it stands under.
fn note_other(
    index: &mut Index,
    was: Option<u64>,
    is: Option<u64>,
    number: u32,
) -> Result<(), AllocError>
    requires { StandsUnder was number index.old }
    ensures ok { OnOk result (Notes is number index.old index.new) }
    ensures err { OnErr result (index.new ≡ index.old) }
{
    if is_same_key(was, is) {
        return Ok(());
    }
    index.note(is, number)
}

/// Takes a number from under a key, unless it is the one that is kept.
fn forget_other(index: &mut Index, gone: Option<u64>, kept: Option<u64>, number: u32)
    ensures { LeavesFor gone kept number index.old index.new }
{
    if is_same_key(gone, kept) {
        return;
    }
    index.forget(gone, number);
}

/// Whether two keys are the same, or there is neither.
fn is_same_key(one: Option<u64>, other: Option<u64>) -> bool
    ensures { result ≡ is_same_key one other }
{
    match (one, other) {
        (None, None) => true,
        (Some(one), Some(other)) => one == other,
        (None, Some(_)) => false,
        (Some(_), None) => false,
    }
}
