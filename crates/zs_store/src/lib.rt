//! A store that keeps, of all that was written at each key, the newest entry: which one that is does not depend on the order in
//! which the writes come, so two stores that took the same writes are equal.
#![tactic(auto)]

pub use entry::Entry;
pub use merged::Merged;
pub use store::Store;

mod entry;
pub mod laws;
mod merged;
mod order;
mod store;
