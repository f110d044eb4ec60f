//! Journals of sessions, written as recordings.
#![tactic(auto)]

pub use laws::journals_are_recorded;
pub use writing::write_recording;

mod laws;
mod writing;
