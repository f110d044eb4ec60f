//! What is so of every script: how whoever receives its messages reads them.
#![tactic(auto)]

pub use laws::{lines_are_spelled, sent_by_lines_is_read, subscribers_of_lines_are_covered};

mod laws;
