//! Stores over two linked sessions: what the one subscriber of each side is handed fills its store, and that is all that both
//! sides wrote.
#![tactic(auto)]

pub use laws::{default_sessions_start, stores_hold_what_was_written};

mod laws;
