//! A session driven by a script: lines in, printed turns out, with the theorem on the whole run.
#![tactic(auto)]

pub use driving::drive;
pub use laws::text_tells;
pub use running::run;
pub use words::settings_of;
pub use zs_core::{KeyList, Settings};
pub use zs_driving::{DriveError, Driven, StdSink, StdSource};

mod driving;
mod laws;
mod printing;
mod quiet;
mod running;
mod scripted;
mod soak;
mod spelling;
mod words;
