//! A session that callers share: its cell lies under a lock, and each event is one hold of it. Handlers are called outside of
//! the lock.
#![tactic(auto)]

pub use clock::Clock;
pub use error::{KeyBack, NotSubmitted, SessionError};
pub use key_args::key_arg;
pub use requests::asks_queryables;
pub use session::Session;
pub use token::SessionToken;
pub use zs_books::{Books, EntryLedger, Three};
pub use zs_gate::Drained;
pub use zs_hands::{Closing, Ending, Handed, Ran};
pub use zs_held::{Asked, Entries, Held, Receipt, numbers_are_told};
pub use zs_posts::Key;
pub use zs_session_cell::{Entry, Handing, NoHandler, NotTaken, SessionCell};
pub use zs_shared::Shared;
pub use zs_turns::{Item, Query};

mod clock;
mod ending;
mod error;
mod key_args;
mod reports;
mod requests;
mod session;
mod taking;
mod token;
mod work;

/// Whoever steps a session: its shares of the three ledgers, and the receipt of the last event that the session took from here.
pub type Caller<B> = zs_books::Caller<B, Receipt<B>>;
