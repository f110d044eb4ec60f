//! A token that threads share, and the value on which a canceller waits.
ghost use Rattle.std.specs.Prelude.{◌≡◌, IfSome, IfOk, IfErr};

use crate::error::{CancelFailed, NotAdded};
use crate::handlers::Handlers;
use crate::job::Job;
use crate::locked::{Locked, Permit};
use crate::outcome::Outcome;
use std::alloc::{AllocError, Global};
use std::marker::Model;
use std::snapshot::Snapshot;
use std::sync::{Arc, Wait};
use zs_gate::{Events, Fact, Gate, Keeper, KeyedLock, Notifier, SyncGroup};

// Under the lock of a token lies a gate, which is the key, so whoever comes back with a permit knows that it is the token's.
struct OfGate;

impl<J: Job> Fact<Locked<J>, Snapshot<Keeper>> for OfGate {
    ghost use Rattle.std.specs.Prelude.{◌≡◌};

    ghost holds = { λ gate locked. locked.gate ≡ gate.value };
}

#[derive(Drop)]
struct Shared<J: Job> {
    lock: KeyedLock<Locked<J>, Snapshot<Keeper>, OfGate>,
    group: SyncGroup,
    // It rises where the outcome was told, and the other cancellers sleep on it.
    events: Events,
}

/// A token that threads share: Zenoh's `CancellationToken`. Its state is a `TokenState` under a lock.
/// Contracts see which token it is, and the gate that its notifiers are inside of.
///
/// What the state holds lies under the lock, so no clause says it of another moment.
#[derive(Drop)]
pub struct CancellationToken<J: Job> {
    shared: Arc<Shared<J>, Global>,
}

impl<J: Job> Model for CancellationToken<J> {
    ghost use Rattle.std.specs.Arc.{arc_value};
    ghost use Rattle.zs_cancel.specs.Places.{TokenPlace};

    ghost Value = { TokenPlace };

    ghost view = { λ t. record { token = (arc_value t.shared).lock.lock; group = (arc_value t.shared).group } };
}

/// A token that someone cancels by `wait`. Contracts see which token it is.
#[derive(Drop)]
pub struct CancelResult<J: Job> {
    shared: Arc<Shared<J>, Global>,
}

impl<J: Job> Model for CancelResult<J> {
    ghost use Rattle.std.specs.Arc.{arc_value};
    ghost use Rattle.zs_cancel.specs.Places.{TokenPlace};

    ghost Value = { TokenPlace };

    ghost view = { λ r. record { token = (arc_value r.shared).lock.lock; group = (arc_value r.shared).group } };
}

impl<J: Job> Shared<J> {
    /// A new token's state under its lock, no notifiers, and no events. The state holds the gate's only pass,
    /// which is the permit. The error is want of memory.
    fn new(alloc: Global) -> Result<Shared<J>, AllocError> {
        let (mut door, keeper) = Gate::open(alloc)?;
        let Ok(pass) = door.pass() else {
            return Err(AllocError);
        };
        let gate = Snapshot::of(&keeper);
        Ok(Shared {
            lock: KeyedLock::new(alloc, &gate, Locked::new(alloc, door, pass))?,
            group: SyncGroup::new(alloc)?,
            events: Events::new(),
        })
    }

    /// The outcome, if it is told by now. It takes the lock for the look alone, and doesn't wait for the run.
    fn result<R: Wait>(&self, rt: &R) -> Option<Outcome> {
        let (locked, taken) = self.lock.take(rt);
        let result = locked.result();
        taken.put(locked);
        result
    }

    // What a canceller finds: the handlers, for the first, or the outcome, once it was told.
    fn look<R: Wait>(&self, rt: &R) -> (Option<(Handlers<J>, Permit)>, Option<Outcome>)
        ensures { IfSome result.0 (λ begun. begun.1 ≡ self.now.lock.key.value) }
    {
        let (mut locked, taken) = self.lock.take(rt);
        let begun = locked.begin();
        let result = locked.result();
        taken.put(locked);
        (begun, result)
    }

    // Runs the handlers, lets go of those that weren't run, and tells the outcome.
    fn run<R: Wait>(&self, rt: &R, mut handlers: Handlers<J>, permit: Permit) -> Outcome
        requires { permit ≡ self.now.lock.key.value }
    {
        let outcome = handlers.run();
        drop(handlers);
        let (mut locked, taken) = self.lock.take(rt);
        locked.finish(permit, outcome);
        taken.put(locked);
        self.events.tell();
        outcome
    }

    // The outcome of the run. The first who asks runs the handlers, and the others wait.
    fn outcome<R: Wait>(&self, rt: &R) -> Outcome {
        for _ in rt.forever() {
            let seen = self.events.count();
            let (begun, result) = self.look(rt);
            if let Some((handlers, permit)) = begun {
                return self.run(rt, handlers, permit);
            }
            if let Some(outcome) = result {
                return outcome;
            }
            self.events.sleep(rt, seen);
        }
        unreachable!()
    }
}

impl<J: Job> CancellationToken<J> {
    /// A token that has no handlers, and that no one cancelled.
    pub fn new(alloc: Global) -> Result<CancellationToken<J>, AllocError> {
        let shared = Shared::new(alloc)?;
        Ok(CancellationToken {
            shared: Arc::new(alloc, shared)?,
        })
    }

    /// Another value of the same token. It takes the allocator as all calls do that can answer want of memory.
    pub fn try_clone(&self, _alloc: Global) -> Result<CancellationToken<J>, AllocError>
        ensures { IfOk result (λ token. token ≡ self.now) }
    {
        Ok(CancellationToken {
            shared: Arc::try_clone(&self.shared)?,
        })
    }

    /// Adds a handler, and answers its number: `TokenState::add`. At `Err` the job comes back.
    pub fn add_on_cancel_handler<R: Wait>(
        &self,
        rt: &R,
        _alloc: Global,
        job: J,
    ) -> Result<u32, NotAdded<J>>
        ensures { IfErr result (λ refused. refused.job ≡ job) }
    {
        let (mut locked, taken) = self.shared.lock.take(rt);
        let added = locked.add(job);
        taken.put(locked);
        added
    }

    /// Removes the handler of this number, and answers whether it was there: `TokenState::remove`.
    pub fn remove_on_cancel_handler<R: Wait>(&self, rt: &R, number: u32) -> bool {
        let (mut locked, taken) = self.shared.lock.take(rt);
        let removed = locked.remove(number);
        taken.put(locked);
        removed
    }

    /// One notifier of the token's group more, for which whoever cancels it waits: `SyncGroup::notifier`.
    pub fn notifier<R: Wait>(&self, rt: &R, alloc: Global) -> Result<Option<Notifier>, AllocError>
        ensures { IfOk result (λ given. IfSome given (λ notifier. notifier ≡ self.now.group)) }
    {
        self.shared.group.notifier(rt, alloc)
    }

    /// Whether the handlers were run, so the outcome stands.
    pub fn is_cancelled<R: Wait>(&self, rt: &R) -> bool {
        self.shared.result(rt).is_some()
    }

    /// The value by whose `wait` the token is cancelled.
    pub fn cancel(&self, _alloc: Global) -> Result<CancelResult<J>, AllocError>
        ensures { IfOk result (λ cancel. cancel ≡ self.now) }
    {
        let shared = Arc::try_clone(&self.shared)?;
        Ok(CancelResult { shared })
    }
}

impl<J: Job> CancelResult<J> {
    /// Cancels the token: runs its handlers, or waits for the caller that runs them. Every caller is answered the same.
    ///
    /// After a success it also waits until every notifier of the token is released. After a failure it closes the
    /// group and waits for none.
    pub fn wait<R: Wait>(self, rt: &R) -> Result<(), CancelFailed> {
        let CancelResult { shared } = self;
        match shared.outcome(rt) {
            Outcome::Done => {
                shared.group.wait(rt);
                Ok(())
            }
            Outcome::Failed(number) => {
                shared.group.close(rt);
                Err(CancelFailed { number })
            }
        }
    }
}
