//! The cell of a session: its core, the handlers with their gates, and the messages that are to be sent. Whoever holds it
//! gives it events, and calls the handlers outside of it.
#![tactic(auto)]

pub use entry::Entry;
pub use handing::Handing;
pub use no_handler::NoHandler;
pub use quiet::{let_ended_go, turn_alone};
pub use session_cell::{NotTaken, SessionCell};
pub use state::{CellState, Taken};

mod entry;
mod handing;
mod no_handler;
mod quiet;
mod session_cell;
mod state;
