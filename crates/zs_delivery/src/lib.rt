//! Two linked sessions, as their histories tell of them: what each sends the other, and who is handed what comes in.
#![tactic(auto)]

pub use laws::{
    delivered_are_handed, links_are_in_order, remote_tokens_are_declared, told_are_declared,
};
pub use side::LinkSide;

mod laws;
mod side;
