//! Laws of a session's callers: what they count as sent, the numbers of the keys that they declare, and the script lines of
//! their calls.
#![tactic(auto)]

pub use laws::{calls_are_lines, key_numbers_are_small, keys_come_back_declared, steps_send_one};

mod laws;
