//! A store over a session: what it takes of the effects of an event, and what it answers a query.
#![tactic(auto)]

pub use answering::answers_to;
pub use keeping::{take_effects, take_sample};

mod answering;
mod keeping;
