//! The parts that the lines of the script language are made of, each read off the front of a line's fields.
#![tactic(auto)]

pub use numbers::{parse_hex, parse_number};
pub use options::is_default;
pub use parts::Fields;
pub use symbols::{after_prefix, parse_entity_kind};

mod channels;
mod numbers;
mod options;
mod parts;
mod publication_parts;
mod query_parts;
mod symbols;
