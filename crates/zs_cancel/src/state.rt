//! The state of a token: its handlers until they are taken, and then the outcome of their run.
ghost use Rattle.std.specs.Prelude.{◌≡◌, ◌==◌, ◌↔◌, true, false, None, IsSome, IfSome, IfNone, IfOk, OnOk, IfErr, IsErrAnd};
ghost use Rattle.std.specs.List.{list_any};
ghost use Rattle.zs_cancel.specs.Tokens.{new_token, Ascends, without, Step};
ghost use Rattle.zs_cancel.specs.Tokens.Call.{add, remove, begin, finish};

use crate::entry::Entry;
use crate::error::{AddError, NotAdded};
use crate::handlers::Handlers;
use crate::job::Job;
use crate::outcome::Outcome;
use std::alloc::Global;
use std::marker::Model;
use std::mem;

/// The state of a token. Contracts see its handlers, whether they were taken, the number that the next handler draws,
/// and the outcome of their run, once it is told.
#[derive(Drop)]
pub struct TokenState<J: Job> {
    handlers: Vec<Entry<J>, Global>,
    taken: bool,
    next: u32,
    outcome: Option<Outcome>,
    alloc: Global,
}

impl<J: Job> Model for TokenState<J> {
    ghost use Rattle.zs_cancel.specs.Tokens.{Token, Ascends};

    ghost Value = { Token J };

    ghost view = { λ t. record { handlers = t.handlers.items; taken = t.taken; next = t.next; outcome = t.outcome } };

    ghost invariant = { λ t. Ascends 0 t.handlers.items t.next };
}

impl<J: Job> TokenState<J> {
    /// A token that has no handlers. It keeps the allocator.
    pub fn new(alloc: Global) -> TokenState<J>
        ensures { result ≡ new_token }
    {
        TokenState {
            handlers: Vec::new(alloc),
            taken: false,
            next: 0,
            outcome: None,
            alloc,
        }
    }

    /// Adds a handler, and answers its number. At `Err` the job comes back, and nothing has changed.
    #[tactic(auto, using(crate::proofs::Numbers::ascends_push))]
    pub fn add(&mut self, job: J) -> Result<u32, NotAdded<J>>
        ensures number { IfOk result (λ number. number ≡ self.old.next) }
        ensures ok { OnOk result (Step self.old (add job) self.new) }
        ensures used { IsErrAnd result (λ refused. refused.why ≡ AddError.TokenUsed) ↔ (self.old.taken ≡ true) }
        ensures exhausted { IsErrAnd result (λ refused. refused.why ≡ AddError.IdsExhausted) ↔ ((self.old.taken ≡ false) × (self.old.next ≡ 4294967295)) }
        ensures err { IfErr result (λ refused. (refused.job ≡ job) × (self.new ≡ self.old)) }
    {
        if self.taken {
            let why = AddError::TokenUsed;
            return Err(NotAdded { why, job });
        }
        if self.next == u32::MAX {
            let why = AddError::IdsExhausted;
            return Err(NotAdded { why, job });
        }
        if self.handlers.reserve(1).is_err() {
            let why = AddError::NoMemory;
            return Err(NotAdded { why, job });
        }
        let number = self.next;
        self.handlers.push_reserved(Entry { number, job });
        self.next += 1;
        Ok(number)
    }

    /// Removes the handler of this number, and answers whether it was there.
    #[tactic(auto, using(crate::proofs::Numbers::ascends_without, crate::proofs::Numbers::without_fewer))]
    pub fn remove(&mut self, number: u32) -> bool
        ensures there { result ≡ list_any (λ e. e.number == number) self.old.handlers }
        ensures rest { Step self.old (remove number) self.new }
    {
        let before = self.handlers.len();
        keep_others(&mut self.handlers, number);
        self.handlers.len() < before
    }

    /// Gives the handlers to be run, the first time that it is called.
    pub fn begin(&mut self) -> Option<Handlers<J>>
        ensures first { IsSome result ↔ (self.old.taken ≡ false) }
        ensures some { IfSome result (λ handlers. Step self.old (begin handlers) self.new) }
        ensures ascends { IfSome result (λ handlers. Ascends 0 handlers self.old.next) }
        ensures none { IfNone result (self.new ≡ self.old) }
    {
        if mem::replace(&mut self.taken, true) {
            return None;
        }
        Some(Handlers::new(mem::replace(&mut self.handlers, Vec::new(self.alloc))))
    }

    /// Tells the outcome of the run.
    pub fn finish(&mut self, outcome: Outcome)
        requires begun { self.old.taken ≡ true }
        requires running { self.old.outcome ≡ None }
        ensures { Step self.old (finish outcome) self.new }
    {
        self.outcome = Some(outcome);
    }

    /// The outcome of the run, once it was told.
    pub fn result(&self) -> Option<Outcome>
        ensures { result ≡ self.now.outcome }
    {
        self.outcome
    }
}

// Leaves the handlers but that of this number.
fn keep_others<J: Drop>(handlers: &mut Vec<Entry<J>, Global>, number: u32)
    ensures { handlers.new.items ≡ without number handlers.old.items }
{
    handlers.retain(|entry| entry.number != number);
}
