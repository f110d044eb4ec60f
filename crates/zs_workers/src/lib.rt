//! Callers that put through one session beside each other, each on a thread of its own, and what the session's journal and the
//! callers' own counts come to.
#![tactic(auto)]

pub use tally::{Worked, Workers};
pub use working::work;

mod counting;
mod events;
mod putting;
mod tally;
mod working;
