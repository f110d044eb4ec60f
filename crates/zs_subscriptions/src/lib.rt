//! The live subscribers of a session, and the declared key numbers of both sides. Each number keeps the list of the
//! subscribers that a publication on its key may reach, so that a publication by number tests no keys.
#![tactic(auto)]

pub use key_ref::KeyRef;
pub use laws::{each_is_next, matches_ascend, next_is_least, walk_visits_all};
pub use recipients::takes;
pub use subscriber::SubRow;
pub use tables::Tables;

mod key_ref;
mod laws;
mod lists;
mod nexts;
mod number_row;
mod number_rows;
mod numbers;
mod own;
mod places;
mod recipients;
mod subscriber;
mod tables;
mod texts;
