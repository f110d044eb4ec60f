//! Rows in ascending number, each found by its number, and indexes that find rows by something else that they name.
#![tactic(auto)]

pub use index::Index;
pub use mark::Mark;
pub use numbers::Numbers;
pub use rows::Rows;

mod behind;
mod index;
mod many;
mod mark;
mod numbers;
mod rows;
