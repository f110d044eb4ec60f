//! What a read of a channel gives.
/// What a read of a channel is answered.
#[derive(Debug, Drop)]
pub enum Received<T> {
    /// An item that was handed to the channel, which is in it no more.
    Item(T),
    /// There is none now.
    Empty,
    /// There is none, and there will be none.
    Disconnected,
    /// Nothing is handed to the channel any more, and what it had is gone.
    Deleted,
}
