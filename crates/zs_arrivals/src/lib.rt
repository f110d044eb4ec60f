//! What linked sessions publish, and what arrives of it: in which order, and who is handed it.
#![tactic(auto)]

pub use laws::{arrivals_are_in_order, samples_follow_publications};

mod laws;
