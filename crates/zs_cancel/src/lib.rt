//! Cancellation tokens for the caller's own jobs: Zenoh's `CancellationToken`.
//!
//! A token takes handlers, each a job with a number. Whoever cancels it first takes them all and runs them in ascending
//! number up to the first that fails; every other canceller waits for that outcome. `TokenState` is what lies under a
//! token's lock, and its contracts carry the exact lists. What a lock holds no clause can say from outside.
#![tactic(auto)]

mod entry;
mod error;
mod handlers;
mod job;
mod law;
mod locked;
mod outcome;
mod state;
mod token;

pub use entry::Entry;
pub use error::{AddError, CancelFailed, NotAdded};
pub use handlers::Handlers;
pub use job::{Job, JobFailed};
pub use law::token_law;
pub use outcome::Outcome;
pub use state::TokenState;
pub use token::{CancelResult, CancellationToken};
