//! The printed text of turns, and of what a read of a channel is answered.
#![tactic(auto)]

pub use digits::{append_bytes, append_hex};
pub use printing::{Margin, append_marked_turn, append_received, append_turn, print_turn};

mod digits;
mod message_printing;
pub mod piece_printing;
mod printing;
mod repeats;
pub mod words;
