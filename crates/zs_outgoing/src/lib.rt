//! What goes out of a session where its application publishes, and where it declares and ends liveliness tokens.
#![tactic(auto)]

pub use laws::{publications_are_given_out, tokens_are_sent};

mod laws;
