//! A recording that a run wrote is played again as the same: the laws of it, which stand on those of sessions and of recordings.
#![tactic(auto)]

pub mod laws;
