//! Payloads as shared slices of bytes, and texts.
#![tactic(auto)]

pub use loading::{ReadError, from_reader};
pub use payload::{TextError, ZBytes};
pub use reader::{BeforeStart, ZBytesReader};
pub use slice_iterator::ZBytesSliceIterator;
pub use text::Text;
pub use writer::ZBytesWriter;

mod equality;
mod loading;
mod making;
mod payload;
mod reader;
mod slice_iterator;
mod slices;
mod text;
mod writer;
