//! Recordings of sessions: each event of a script with what came of it, and whether the same comes of it again.
#![tactic(auto)]

pub use driving::{record, replay};
pub use error::RecordError;
pub use replayed::Replayed;
pub use running::{Mode, record_run};
pub use writing::write_entry;

mod driving;
mod entries;
mod error;
pub mod laws;
mod recorder;
mod replayed;
mod replayer;
mod running;
mod writing;
