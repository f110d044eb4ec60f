//! Values that several hold at once, each in one place in memory.
#![tactic(auto)]

pub use shared::Shared;

mod shared;
