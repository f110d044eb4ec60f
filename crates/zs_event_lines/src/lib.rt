//! Events printed as the lines that say them, by the same table of parts that reads lines.
#![tactic(auto)]

pub use events::{append_event, print_event};

mod declarations;
mod events;
mod fields;
pub mod laws;
mod lines;
mod messages;
mod optional;
mod publications;
mod queries;
mod saying;
mod shown;
mod texts;
mod words;
