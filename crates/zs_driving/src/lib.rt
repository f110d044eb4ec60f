//! Runs over lines: a machine takes each line of a source, and what it puts out for them goes to a sink.
#![tactic(auto)]

pub use complaining::{complain, conclude};
pub use driving::{Driven, drive_lines};
pub use errors::DriveError;
pub use laws::texts_are_of_events;
pub use machine::LineMachine;
pub use system::{StdSink, StdSource};
pub use transcript::Transcript;

mod complaining;
mod driving;
mod errors;
mod laws;
mod machine;
mod system;
mod transcript;
