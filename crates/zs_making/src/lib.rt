//! What events bring about, as far as no table is needed for it: contents and samples, what a get asks, what is handed out and sent.
#![tactic(auto)]

pub mod answers;
pub mod content;
pub mod ended_gets;
pub mod get_effects;
pub mod gets;
pub mod groups;
pub mod keys;
pub mod liveliness;
pub mod matching;
pub mod publications;
pub mod publishers;
pub mod queriers;
pub mod queryables;
pub mod questions;
pub mod subscribers;
pub mod tokens;
pub mod values;
pub mod wires;
