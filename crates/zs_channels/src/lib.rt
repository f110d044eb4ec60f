//! The channels into which what is handed to subscribers and gets can go, beside being printed: a table of them by the
//! kind and number of whom they are, each a lent queue.
#![tactic(auto)]

pub use channels::Channels;
pub use laws::{channels_are_told, fifo_gives_all, holds_handed, opens_nothing, ring_keeps_newest};

mod channels;
mod hearing;
mod latest_ring;
mod laws;
mod numbered;
mod open_channel;
mod shelf;
mod waiting_fifo;
