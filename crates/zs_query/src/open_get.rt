//! One open get: what it makes of a reply in each consolidation mode, and of a final.
ghost use Rattle.std.specs.Prelude.{◌≡◌, Some, IfOk, OnOk, OnErr, IsOk, if◌then◌else◌};
ghost use Rattle.zs_query.specs.Gets.{fresh, peek_by, peek_get, named, after_reply, replied, final_outcome, less_final};

use crate::get_row::GetRow;
use crate::kept_replies::KeptReplies;
use crate::last_times::LastTimes;
use crate::outcome::{Outcome, Peek};
use crate::replies::Replies;
use crate::side::Side;
use std::alloc::{AllocError, Global};
use zs_sample::{ConsolidationMode, Reply, Sample};

/// An open get with what it has to know of the replies that it has had.
#[derive(Drop)]
pub(crate) struct OpenGet {
    pub(crate) row: GetRow,
    /// The replies that its end hands out, in mode `Latest`.
    pub(crate) kept: KeptReplies,
    /// When each key was handed out last, in mode `Monotonic`.
    pub(crate) passed: LastTimes,
}

impl OpenGet {
    /// A get that has had no reply.
    pub(crate) fn new(alloc: Global, row: GetRow) -> OpenGet
        ensures { result ≡ fresh row }
    {
        OpenGet {
            row,
            kept: KeptReplies::new(alloc),
            passed: LastTimes::new(alloc),
        }
    }

    /// What a reply would come to.
    pub(crate) fn peek(&self, reply: &Reply) -> Peek
        requires { IsOk reply.now.result }
        ensures { result ≡ peek_get self.now reply.now }
    {
        let Ok(sample) = reply.result() else {
            unreachable!()
        };
        if !self.row.takes_key(sample.key_expr()) {
            return Peek::Unmatched;
        }
        self.peek_sample(sample)
    }

    /// What a sample that the get takes would come to.
    fn peek_sample(&self, sample: &Sample) -> Peek
        ensures { result ≡ peek_by self.now.row.mode self.now (record { result = Ok sample.now; replier = None }) }
    {
        match self.row.mode {
            ConsolidationMode::Auto | ConsolidationMode::None => Peek::Handed,
            ConsolidationMode::Monotonic => handed_if(self.passed.lets_pass(sample)),
            ConsolidationMode::Latest => kept_if(self.kept.lets_pass(sample)),
        }
    }

    /// Takes a reply.
    pub(crate) fn take(&mut self, alloc: Global, reply: Reply) -> Result<Outcome, AllocError>
        requires { IsOk reply.result }
        ensures answer { IfOk result (λ outcome. outcome ≡ named (peek_get self.old reply) reply) }
        ensures ok { OnOk result (self.new ≡ replied reply self.old) }
        ensures err { OnErr result (self.new ≡ self.old) }
    {
        let name = self.peek(&reply);
        match name {
            Peek::Kept => {
                self.kept.put(alloc, reply)?;
                Ok(Outcome::Kept)
            }
            Peek::Handed => {
                self.note(alloc, &reply)?;
                Ok(Outcome::Handed(reply))
            }
            Peek::Unknown | Peek::Unmatched | Peek::Dropped => Ok(name.with(reply)),
        }
    }

    /// Notes that a reply is handed out.
    fn note(&mut self, alloc: Global, reply: &Reply) -> Result<(), AllocError>
        requires { IsOk reply.now.result }
        ensures ok { OnOk result (self.new ≡ after_reply Peek.Handed reply.now self.old) }
        ensures err { OnErr result (self.new ≡ self.old) }
    {
        if self.row.mode != ConsolidationMode::Monotonic {
            return Ok(());
        }
        let Ok(sample) = reply.result() else {
            unreachable!()
        };
        self.passed.put(alloc, sample)
    }

    /// What the final of a side would come to.
    pub(crate) fn peek_final(&self, alloc: Global, side: Side) -> Result<Outcome, AllocError>
        ensures { IfOk result (λ outcome. outcome ≡ final_outcome side (Some self.now)) }
    {
        if !self.row.wants(side) {
            return Ok(Outcome::Repeated);
        }
        if self.row.wants(side.other()) {
            return Ok(Outcome::Counted);
        }
        Ok(Outcome::Ended(Replies::of(self.kept.copies(alloc)?)))
    }

    /// Waits for the final of that side no longer.
    pub(crate) fn take_final(&mut self, side: Side)
        ensures { self.new ≡ less_final side self.old }
    {
        self.row.take_final(side);
    }

    /// What it keeps.
    pub(crate) fn into_kept(self) -> KeptReplies
        ensures { result ≡ self.kept }
    {
        let OpenGet { row, kept, passed } = self;
        drop(row);
        drop(passed);
        kept
    }
}

/// What mode `Monotonic` makes of a sample: it is handed out at once, unless a newer one of its key was.
fn handed_if(passes: bool) -> Peek
    ensures { result ≡ (if passes then Peek.Handed else Peek.Dropped) }
{
    if passes { Peek::Handed } else { Peek::Dropped }
}

/// What mode `Latest` makes of a sample: it is kept for the end, unless a newer one of its key is.
fn kept_if(passes: bool) -> Peek
    ensures { result ≡ (if passes then Peek.Kept else Peek.Dropped) }
{
    if passes { Peek::Kept } else { Peek::Dropped }
}
