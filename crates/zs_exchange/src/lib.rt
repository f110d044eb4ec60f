//! What stands between a session's core and those who take what comes of its events: the gates with the handlers behind
//! them, and the messages that are to be sent. It carries out what a turn says, all or nothing, and knows nothing of the
//! core that made the turn.
#![tactic(auto)]

pub use exchange::{Exchange, Prepared};

mod beginning;
mod exchange;
mod outbox;
