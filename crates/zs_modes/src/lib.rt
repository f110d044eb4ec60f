//! The program: all its modes, with the theorem on the whole run.
#![tactic(auto)]

pub use running::run;

mod running;
mod working;
