//! Rows in ascending number with a tree of their keys, found by a number, and by a key that theirs meet.
#![tactic(auto)]

pub use counted::Counted;
pub use keyed::Keyed;
pub use keyed_rows::KeyedRows;

mod counted;
mod keyed;
mod keyed_rows;
