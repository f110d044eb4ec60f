//! The indexes that find open gets by what they name.

ghost use Rattle.std.specs.Prelude.{◌≡◌, ℕ, false, [], OnOk, OnErr};
ghost use Rattle.zs_rows.specs.Index.{is_marked, Notes, IsSame};
ghost use Rattle.zs_query.specs.GetRows.{NotesAll, ForgetsAll, AreSame, IsFree};

use std::alloc::{AllocError, Global};
use zs_rows::Index;

/// A get's number, and the keys under which it is found.
#[derive(Clone, Copy, Drop)]
pub(crate) struct GetKeys {
    pub(crate) number: u32,
    pub(crate) deadline: u64,
    pub(crate) cancellation_token: Option<u64>,
    pub(crate) querier: Option<u64>,
}

/// The numbers of the open gets by deadline, by cancellation token and by querier.
#[derive(Drop)]
pub(crate) struct GetMarks {
    pub(crate) deadlines: Index,
    pub(crate) cancellation_tokens: Index,
    pub(crate) queriers: Index,
}

impl GetMarks {
    /// No mark.
    pub(crate) fn new(alloc: Global) -> GetMarks
        ensures { result ≡ record { deadlines = []; cancellation_tokens = []; queriers = [] } }
    {
        GetMarks {
            deadlines: Index::new(alloc),
            cancellation_tokens: Index::new(alloc),
            queriers: Index::new(alloc),
        }
    }

    /// Puts a get under its keys. At an `Err` the marks are as they were.
    pub(crate) fn note(&mut self, keys: GetKeys) -> Result<(), AllocError>
        requires { IsFree keys.number self.old }
        ensures ok { OnOk result (NotesAll keys self.old self.new) }
        ensures err { OnErr result (AreSame self.old self.new) }
    {
        self.deadlines.note(Some(keys.deadline), keys.number)?;
        if let Err(error) = note_names(&mut self.cancellation_tokens, &mut self.queriers, keys) {
            self.deadlines.forget(Some(keys.deadline), keys.number);
            return Err(error);
        }
        Ok(())
    }

    /// Takes a get from under its keys.
    pub(crate) fn forget(&mut self, keys: GetKeys)
        ensures { ForgetsAll keys self.old self.new }
    {
        self.deadlines.forget(Some(keys.deadline), keys.number);
        self.cancellation_tokens
            .forget(keys.cancellation_token, keys.number);
        self.queriers.forget(keys.querier, keys.number);
    }

    /// Takes out all marks.
    pub(crate) fn clear(&mut self)
        ensures { self.new ≡ record { deadlines = []; cancellation_tokens = []; queriers = [] } }
    {
        self.deadlines.clear();
        self.cancellation_tokens.clear();
        self.queriers.clear();
    }
}

/// Puts a get under its cancellation token and its querier, or under neither.
fn note_names(
    cancellation_tokens: &mut Index,
    queriers: &mut Index,
    keys: GetKeys,
) -> Result<(), AllocError>
    requires { (k : ℕ) → is_marked k keys.number cancellation_tokens.old ≡ false }
    ensures cancellation_tokens { OnOk result (Notes keys.cancellation_token keys.number cancellation_tokens.old cancellation_tokens.new) }
    ensures queriers { OnOk result (Notes keys.querier keys.number queriers.old queriers.new) }
    ensures same_cancellation_tokens { OnErr result (IsSame cancellation_tokens.old cancellation_tokens.new) }
    ensures same_queriers { OnErr result (IsSame queriers.old queriers.new) }
{
    cancellation_tokens.note(keys.cancellation_token, keys.number)?;
    if let Err(error) = queriers.note(keys.querier, keys.number) {
        cancellation_tokens.forget(keys.cancellation_token, keys.number);
        return Err(error);
    }
    Ok(())
}
