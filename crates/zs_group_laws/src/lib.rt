//! A group over two linked sessions: whom each side sees is who joined it, on its own side and, as far as that was delivered, on
//! the other.
#![tactic(auto)]

pub use laws::{default_sessions_start, sides_see_members};

mod laws;
