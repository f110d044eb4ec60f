//! What listeners hear of a change.
#![tactic(auto)]

pub use listeners::hear;

mod listeners;
