//! Laws over messages as plain numbers and bytes. The functions do nothing: their contracts are the laws.
#![tactic(auto)]

pub use passing::messages_pass;

mod passing;
