//! The three ledgers of a session, and the shares that its callers have in them.
//!
//! A ledger counts across threads. Each caller has a share of it, with an amount, and the session has the total of all
//! amounts. So whoever has joined all shares knows the session's own numbers.
#![tactic(auto)]

pub use account::Account;
pub use accounts::Accounts;
pub use books::{Books, EntryLedger, Three};
pub use caller::Caller;
pub use tally::Tally;

mod account;
mod accounts;
mod books;
mod caller;
mod tally;
