//! A session that takes lines of the script language, and keeps the printed text of its turns until it is read.
#![tactic(auto)]

pub use session::{LineFault, LineSession};

mod kept;
mod session;
