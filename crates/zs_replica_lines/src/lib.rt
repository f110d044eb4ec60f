//! The lines of a replicated store: what a line asks of its side, and what is printed of stores and of gets.
#![tactic(auto)]

pub use line::{ReplicaLine, ReplicaRefusal, parse_line, refusal_name};
pub use printing::{append_ends, append_store};

mod line;
mod printing;
mod symbols;
