//! A session's cell with the books of its three ledgers, and the receipts that it gives for the events that it takes.
#![tactic(auto)]

pub use asked::Asked;
pub use entries::Entries;
pub use held::{Held, Receipt};
pub use law::numbers_are_told;

mod asked;
mod entries;
mod held;
mod law;
mod messages;

/// Whoever steps a session: its shares of the three ledgers, and the receipt of the last event that the session took from here.
pub type Caller<B> = zs_books::Caller<B, Receipt<B>>;
