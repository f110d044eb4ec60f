//! The output line that answers a line of a program over two linked sessions.
#![tactic(auto)]

pub use heads::{append_answer, append_count, append_ok, append_refused};

mod heads;
