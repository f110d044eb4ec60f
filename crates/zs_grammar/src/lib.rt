//! What the lines of the script language say: each form, read into an event.
#![tactic(auto)]

pub use grammar::parse_event;

mod bodies;
mod declarations;
mod gets;
mod grammar;
mod liveliness;
mod messages;
mod publications;
mod replies;
mod requests;
mod responses;
