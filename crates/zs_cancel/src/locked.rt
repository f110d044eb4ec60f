//! What a token's lock guards: the state, and the permit to tell the outcome.
ghost use Rattle.std.specs.Prelude.{◌≡◌, ◌==◌, ◌↔◌, true, false, IsSome, IfSome, IfNone, IfOk, OnOk, IfErr, IsErrAnd};
ghost use Rattle.std.specs.List.{list_any};
ghost use Rattle.atomic_table.specs.Seated.{TableId, table_id_coded};
ghost use Rattle.zs_cancel.specs.declared.error.AddError.TheVariants.{TokenUsed, IdsExhausted};
ghost use Rattle.zs_cancel.specs.Tokens.{new_token, Step};
ghost use Rattle.zs_cancel.specs.Tokens.Call.{add, remove, begin, finish};

use crate::error::NotAdded;
use crate::handlers::Handlers;
use crate::job::Job;
use crate::outcome::Outcome;
use crate::state::TokenState;
use std::alloc::Global;
use std::marker::Model;
use zs_gate::{Door, Pass};

// The right and the duty to tell the outcome, a pass of the token's own gate: a program that lets it go doesn't compile.
// To a contract it is the gate.
pub struct Permit {
    pass: Pass,
}

impl Model for Permit {
    ghost Value = { TableId };

    ghost coded = { table_id_coded };

    ghost view = { λ p. p.pass.gate };
}

// A token's state, and the permit until it is given out. The door has it out until the outcome is told.
#[derive(Drop)]
pub struct Locked<J: Job> {
    state: TokenState<J>,
    door: Door,
    permit: Option<Pass>,
}

impl<J: Job> Model for Locked<J> {
    ghost use Rattle.std.specs.Prelude.{◌≡◌, true, false, IfSome, IfNone};
    ghost use Rattle.zs_cancel.specs.Places.{LockedSeen};

    ghost Value = { LockedSeen J };

    ghost view = { λ l. record { gate = l.door.gate; token = l.state } };

    ghost invariant = { λ l.
        IfSome l.permit (λ pass. (pass.gate ≡ l.door.gate) × (l.state.taken ≡ false))
        × IfNone l.permit (l.state.taken ≡ true)
        × IfNone l.state.outcome (l.door.out ≡ 1)
        × IfSome l.state.outcome (λ _. l.door.out ≡ 0) };
}

impl<J: Job> Locked<J> {
    // The state of a new token. The pass is the door's only one.
    pub fn new(alloc: Global, door: Door, pass: Pass) -> Locked<J>
        requires { (pass.gate ≡ door.gate) × (door.out ≡ 1) }
        ensures { result ≡ record { gate = door.gate; token = new_token } }
    {
        Locked {
            state: TokenState::new(alloc),
            door,
            permit: Some(pass),
        }
    }

    // A handler more, as in the state.
    pub fn add(&mut self, job: J) -> Result<u32, NotAdded<J>>
        ensures gate { self.new.gate ≡ self.old.gate }
        ensures number { IfOk result (λ number. number ≡ self.old.token.next) }
        ensures ok { OnOk result (Step self.old.token (add job) self.new.token) }
        ensures used { IsErrAnd result (λ refused. refused.why ≡ TokenUsed) ↔ (self.old.token.taken ≡ true) }
        ensures exhausted { IsErrAnd result (λ refused. refused.why ≡ IdsExhausted) ↔ ((self.old.token.taken ≡ false) × (self.old.token.next ≡ 4294967295)) }
        ensures err { IfErr result (λ refused. (refused.job ≡ job) × (self.new ≡ self.old)) }
    {
        self.state.add(job)
    }

    // A handler less, as in the state.
    pub fn remove(&mut self, number: u32) -> bool
        ensures there { result ≡ list_any (λ e. e.number == number) self.old.token.handlers }
        ensures gate { self.new.gate ≡ self.old.gate }
        ensures rest { Step self.old.token (remove number) self.new.token }
    {
        self.state.remove(number)
    }

    // The outcome, once it was told.
    pub fn result(&self) -> Option<Outcome>
        ensures { result ≡ self.now.token.outcome }
    {
        self.state.result()
    }

    // The handlers and the permit, the first time that it is called.
    pub fn begin(&mut self) -> Option<(Handlers<J>, Permit)>
        ensures first { IsSome result ↔ (self.old.token.taken ≡ false) }
        ensures some { IfSome result (λ begun. Step self.old.token (begin begun.0) self.new.token) }
        ensures permit { IfSome result (λ begun. begun.1 ≡ self.old.gate) }
        ensures gate { self.new.gate ≡ self.old.gate }
        ensures none { IfNone result (self.new ≡ self.old) }
    {
        let pass = self.permit.take()?;
        let Some(handlers) = self.state.begin() else {
            unreachable!()
        };
        Some((handlers, Permit { pass }))
    }

    // Tells the outcome. Who has the permit knows that none was told.
    pub fn finish(&mut self, permit: Permit, outcome: Outcome)
        requires { permit ≡ self.old.gate }
        ensures gate { self.new.gate ≡ self.old.gate }
        ensures told { Step self.old.token (finish outcome) self.new.token }
    {
        let Permit { pass } = permit;
        self.door.take_back(pass);
        if let Some(other) = self.permit.take() {
            self.door.take_back(other);
            unreachable!()
        }
        self.state.finish(outcome);
    }
}
