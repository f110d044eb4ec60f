//! The channels that what is handed over can go into.
/// Where what is handed to a subscriber or a get goes, beside being printed.
#[derive(Clone, Copy, Debug, PartialEq, Eq, Hash)]
pub enum Chan {
    /// Nowhere else: there is no channel.
    Print,
    /// Into a queue of this size. What doesn't fit waits behind it, in order.
    Fifo(u32),
    /// Into a ring of this size, which keeps the newest items.
    Ring(u32),
}
