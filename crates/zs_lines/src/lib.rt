//! Lines of bytes: a reader that cuts what a source gives into them, and the write of a whole piece.
#![tactic(auto)]

pub use reader::{Line, LineError, LineReader};
pub use writing::{WriteFault, write_whole};

mod bytes;
mod held;
mod reader;
mod writing;
