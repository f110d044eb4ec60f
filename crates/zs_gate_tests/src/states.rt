//! The state of a token, as it lies under the token's lock.

use crate::jobs::{Words, Write};
use zs_cancel::{Outcome, TokenState};

// Whether a state takes a job.
fn takes(state: &mut TokenState<Write>, job: Write) -> bool {
    match state.add(job) {
        Ok(_) => true,
        Err(refused) => {
            drop(refused);
            false
        }
    }
}

// How the handlers of a state end that are taken now.
fn run_taken(state: &mut TokenState<Write>) -> Option<Outcome> {
    let mut handlers = state.begin()?;
    Some(handlers.run())
}

/// Handlers run in the order in which they were added, and none behind the first that fails.
#[test]
fn runs_in_order_up_to_the_first_failure(rt: HostRuntime) {
    let words = Words::new(&rt);
    words.release();
    let mut state = TokenState::new(rt.alloc());
    let seen = (
        takes(&mut state, Write::new(&rt, &words, 1, false)),
        takes(&mut state, Write::new(&rt, &words, 2, true)),
        takes(&mut state, Write::new(&rt, &words, 3, false)),
        run_taken(&mut state),
        words.written(),
    );
    assert!(rt; seen == (true, true, true, Some(Outcome::Failed(1)), 12));
}
