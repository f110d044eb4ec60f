//! The lines of a group's members: what a line asks of its side, the tokens that a side holds, what it hears of the other, and
//! what is printed.
#![tactic(auto)]

pub use hearing::hear_effects;
pub use line::{GroupLine, parse_line};
pub use membership::Membership;
pub use printing::{append_answer, append_not_member, append_view};
pub use tokens::{Token, Tokens};

mod hearing;
mod line;
mod membership;
mod printing;
mod tokens;
