//! The keys of whatever events a program holds are spelled with characters, and those of its settings: what laws on messages
//! take for granted.
#![tactic(auto)]

pub use events::{spell_event, spell_events};
pub use settings::spell_settings;

mod events;
mod keys;
mod messages;
mod settings;
