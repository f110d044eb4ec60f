//! What a turn asks of the session that holds the handlers: which gate its event opens, which handlers it calls inside
//! of which gates and with what, and which gates it ends.
#![tactic(auto)]

pub use calls::wanted;
pub use gates::{opened_name, turn_ends};
pub use item::Item;
pub use query::Query;

mod calls;
mod gates;
mod item;
mod query;
