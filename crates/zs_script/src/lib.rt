//! The script language: lines in, events out, and the printed text of a turn.
#![tactic(auto)]

pub use zs_grammar::parse_event;
pub use zs_lines::{Line, LineError, LineReader, WriteFault, write_whole};
pub use zs_parts::{after_prefix, parse_hex, parse_number};
pub use zs_printing::{
    Margin, append_bytes, append_hex, append_marked_turn, append_received, append_turn,
    piece_printing, print_turn, words,
};

pub mod laws;
