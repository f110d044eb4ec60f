//! The base of the session: key expressions, a counter of steps, and streams of bytes that may fail.
#![tactic(auto)]

mod canonical;
mod canonize;
mod chunks;
mod comparisons;
mod declaration;
mod inclusion;
mod joining;
mod key_error;
mod key_expr;
mod key_text;
pub mod laws;
mod matching;
mod memory;
mod pattern;
mod plain;
mod prefix;
mod segment;
mod steps;
mod stream;
mod units;
mod verbatim;

pub use declaration::Declared;
pub use key_error::KeyError;
pub use key_expr::KeyExpr;
pub use matching::{chunk_meets, texts_meet};
pub use memory::{MemorySink, MemorySource, SteadySource};
pub use steps::Steps;
pub use stream::{Failed, Sink, Source};
