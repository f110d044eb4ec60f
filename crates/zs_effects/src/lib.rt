//! In which order an event's effects stand, and what gets of tokens are handed.
#![tactic(auto)]

pub use laws::{effects_ascend, others_are_answered_nothing, tokens_gets_are_handed};

mod laws;
