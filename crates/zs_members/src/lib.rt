//! Who is in a group, and how often: counts by name, told by the samples of a subscriber to liveliness tokens.
#![tactic(auto)]

pub use name::{is_name, name_in};
pub use view::View;

pub mod laws;
mod name;
mod view;
