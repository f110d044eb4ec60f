//! Tokens that threads share: who cancels one, and who waits for that.

use crate::jobs::{Words, Write};
use crate::notifiers::{given, is_refused};
use crate::running::{Host, Running, Task};
use crate::words::comes;
use std::alloc::AllocGlobal;
use std::process::Abort;
use std::sync::Wait;
use zs_cancel::{AddError, CancelFailed, CancelResult, CancellationToken};
use zs_gate::Notifier;

// Who cancels a token, and how it is to be answered.
#[derive(Drop)]
struct Canceller {
    cancel: CancelResult<Write>,
    wanted: Result<(), CancelFailed>,
}

impl Task for Canceller {
    /// Cancels, waits for the handlers and the notifiers, and tells whether the answer is the wanted one.
    fn run<R: Wait>(self, rt: &R) -> bool {
        let Canceller { cancel, wanted } = self;
        cancel.wait(rt) == wanted
    }
}

// A token, and the words of its jobs.
struct Trial {
    words: Words,
    token: CancellationToken<Write>,
}

impl Drop for Trial {
    /// Drops the words and the token. It is written out, so that no proof takes a trial apart where it goes.
    fn drop(self) {
        let Trial { words: _, token: _ } = self;
    }
}

impl Trial {
    // A token whose jobs wait.
    fn new<R: AllocGlobal + Abort>(rt: &R) -> Trial {
        let words = Words::new(rt);
        let token = CancellationToken::new(rt.alloc()).expect(rt, "a token");
        Trial { words, token }
    }

    // Adds a job of that digit: its number, or why it comes back.
    fn add<R: Wait + AllocGlobal + Abort>(
        &self,
        rt: &R,
        digit: u64,
        failing: bool,
    ) -> Result<u32, AddError> {
        let job = Write::new(rt, &self.words, digit, failing);
        match self.token.add_on_cancel_handler(rt, rt.alloc(), job) {
            Ok(number) => Ok(number),
            Err(refused) => {
                let why = refused.why;
                drop(refused);
                Err(why)
            }
        }
    }

    // Who is to cancel the token.
    fn canceller<R: AllocGlobal + Abort>(
        &self,
        rt: &R,
        wanted: Result<(), CancelFailed>,
    ) -> Canceller {
        let cancel = self.token.cancel(rt.alloc()).expect(rt, "a cancel");
        Canceller { cancel, wanted }
    }

    // Whether the token, cancelled here, answers as wanted.
    fn ends<R: Wait + AllocGlobal + Abort>(
        &self,
        rt: &R,
        wanted: Result<(), CancelFailed>,
    ) -> bool {
        self.canceller(rt, wanted).run(rt)
    }

    // A thread that cancels the token.
    fn start<R: Host>(&self, rt: &R, wanted: Result<(), CancelFailed>) -> Running {
        Running::start(rt, self.canceller(rt, wanted))
    }
}

// Whether two threads cancel the token, of which the first runs its job, and the other waits for that.
fn cancels_twice<R: Host>(rt: &R, trial: &Trial) -> bool {
    let running = trial.start(rt, Ok(()));
    let runs = comes(rt, &trial.words.digits, 1);
    let waiting = trial.start(rt, Ok(()));
    let waits = waiting.waits(rt);
    let is_over = trial.token.is_cancelled(rt);
    trial.words.release();
    let ends = (running.ends(rt), waiting.ends(rt));
    (runs, waits, is_over, ends) == (true, true, false, (true, true))
}

/// Of two threads that cancel a token, one runs the handler, and both are answered once it has ended.
#[test]
fn runs_a_handler_once_for_two_threads(rt: HostRuntime) {
    let trial = Trial::new(&rt);
    assert!(rt; trial.add(&rt, 1, false) == Ok(0));
    assert!(rt; cancels_twice(&rt, &trial));
    assert!(rt; trial.words.written() == 1);
}

// Whether a thread and this one cancel the token and are answered that its job failed.
fn fails_twice<R: Host>(rt: &R, trial: &Trial) -> bool {
    let failed = Err(CancelFailed { number: 0 });
    let other = trial.start(rt, failed);
    (trial.ends(rt, failed), other.ends(rt)) == (true, true)
}

// A notifier is out all the while: nobody waits for it after a failure.
#[test]
fn answers_each_canceller_the_failure(rt: HostRuntime) {
    let trial = Trial::new(&rt);
    trial.words.release();
    let added = trial.add(&rt, 1, true);
    let notifier = given(&rt, trial.token.notifier(&rt, rt.alloc()));
    let fails = fails_twice(&rt, &trial);
    notifier.release(&rt);
    assert!(rt; (added, fails, trial.words.written()) == (Ok(0), true, 1));
}

/// A token that was cancelled refuses a handler.
#[test]
fn takes_no_handler_once_it_is_cancelled(rt: HostRuntime) {
    let trial = Trial::new(&rt);
    let ends = trial.ends(&rt, Ok(()));
    assert!(rt; (ends, trial.add(&rt, 1, false)) == (true, Err(AddError::TokenUsed)));
}

// Whether another value of the token removes the handler of number 1, which then isn't run.
fn removes_the_second<R: Wait + AllocGlobal + Abort>(rt: &R, trial: &Trial) -> bool {
    let other = trial.token.try_clone(rt.alloc()).expect(rt, "the token");
    let seen = (
        other.remove_on_cancel_handler(rt, 1),
        other.is_cancelled(rt),
        trial.ends(rt, Ok(())),
        other.is_cancelled(rt),
    );
    seen == (true, false, true, true)
}

/// A handler that was removed isn't run: its failure doesn't show.
#[test]
fn leaves_out_what_was_removed(rt: HostRuntime) {
    let trial = Trial::new(&rt);
    trial.words.release();
    let added = (trial.add(&rt, 1, false), trial.add(&rt, 2, true));
    assert!(rt; added == (Ok(0), Ok(1)));
    assert!(rt; removes_the_second(&rt, &trial));
    assert!(rt; trial.words.written() == 1);
}

// Whether a thread that cancels the token waits until its only notifier is released.
fn wakes_at_a_release<R: Host>(rt: &R, trial: &Trial, notifier: Notifier) -> bool {
    let canceller = trial.start(rt, Ok(()));
    let waits = canceller.waits(rt);
    notifier.release(rt);
    (waits, canceller.ends(rt)) == (true, true)
}

/// Who cancels a token waits for its notifier; from then on the token gives none.
#[test]
fn waits_for_a_notifier(rt: HostRuntime) {
    let trial = Trial::new(&rt);
    let notifier = given(&rt, trial.token.notifier(&rt, rt.alloc()));
    assert!(rt; wakes_at_a_release(&rt, &trial, notifier));
    assert!(rt; is_refused(&rt, trial.token.notifier(&rt, rt.alloc())));
}
