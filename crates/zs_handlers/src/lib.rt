//! Handlers, which take the items of a callback, and the channels that are handlers: Zenoh's `FifoChannel` and `RingChannel`.
//!
//! The queues that are lent carry their exact lists in their contracts. A channel is such a queue under a lock, shared by
//! a sender, which is a handler, and a receiver. What a lock holds no clause can say from outside.
#![tactic(auto)]

mod channel;
mod clock;
mod drain;
mod error;
mod fifo;
mod fifo_queue;
mod fifo_state;
mod handler;
mod iter;
mod law;
mod place;
mod polled;
mod ring;
mod ring_queue;
mod share;

pub use channel::{DefaultHandler, FifoChannel, RingChannel};
pub use drain::Drain;
pub use error::{ChannelError, Disconnected, RingDeleted};
pub use fifo::{FifoChannelHandler, FifoSender};
pub use fifo_queue::FifoQueue;
pub use handler::{Handled, Handler, Took};
pub use iter::{IntoIter, Iter, TryIter};
pub use law::fifo_law;
pub use polled::{RecvFut, RecvStream};
pub use ring::{RingChannelHandler, RingSender};
pub use ring_queue::RingQueue;
