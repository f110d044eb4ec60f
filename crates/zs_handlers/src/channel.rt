//! The channels that a program names where a callback is wanted.
ghost use Rattle.std.specs.Prelude.{◌≡◌, ◌≢◌, ◌↔◌, IfOk};
ghost use Rattle.zs_handlers.specs.Ends.{capacity_of, fired_by, source_of};
ghost use Rattle.zs_handlers.specs.declared.channel.TheConstants.{DEFAULT_CAPACITY};

use crate::error::ChannelError;
use crate::fifo::{FifoChannelHandler, FifoSender};
use crate::ring::{RingChannelHandler, RingSender};
use std::alloc::Global;
use std::marker::Model;

/// The capacity of a channel where none is given.
const DEFAULT_CAPACITY: usize = 256;

/// A channel that keeps each item in order. A sender that finds it full waits until there is room.
/// Contracts see its capacity.
#[derive(Debug, Drop)]
pub struct FifoChannel {
    capacity: usize,
}

impl Model for FifoChannel {
    ghost use Rattle.std.specs.Prelude.{ℕ};

    ghost Value = { ℕ };

    ghost view = { λ c. c.capacity };
}

/// A channel that keeps the newest items: where it is full, the oldest one makes room. Contracts see its capacity.
#[derive(Debug, Drop)]
pub struct RingChannel {
    capacity: usize,
}

impl Model for RingChannel {
    ghost use Rattle.std.specs.Prelude.{ℕ};

    ghost Value = { ℕ };

    ghost view = { λ c. c.capacity };
}

/// A fifo of 256 items.
#[derive(Clone, Copy, Debug, Default)]
pub struct DefaultHandler;

impl FifoChannel {
    /// A channel for at most `capacity` unread items.
    pub fn new(capacity: usize) -> FifoChannel
        ensures { result ≡ capacity }
    {
        FifoChannel { capacity }
    }

    /// The two ends of the channel: the sender is a handler, and the receiver gives what it was handed.
    pub fn into_handler<T: Drop>(
        self,
        alloc: Global,
    ) -> Result<(FifoSender<T>, FifoChannelHandler<T>), ChannelError>
        ensures one { IfOk result (λ ends. fired_by ends.0 ≡ source_of ends.1) }
        ensures ok { IfOk result (λ ends. capacity_of ends.1 ≡ self) }
        ensures zero { (result ≡ Err ChannelError.ZeroCapacity) ↔ (self ≡ 0) }
    {
        FifoSender::pair(alloc, self.capacity)
    }
}

impl Default for FifoChannel {
    /// A channel for at most 256 unread items.
    fn default() -> FifoChannel
        ensures { result ≡ DEFAULT_CAPACITY }
    {
        FifoChannel::new(DEFAULT_CAPACITY)
    }
}

impl RingChannel {
    /// A channel for at most `capacity` unread items.
    pub fn new(capacity: usize) -> RingChannel
        ensures { result ≡ capacity }
    {
        RingChannel { capacity }
    }

    /// The two ends of the channel: the sender is a handler, and the receiver gives what it was handed.
    pub fn into_handler<T: Drop>(
        self,
        alloc: Global,
    ) -> Result<(RingSender<T>, RingChannelHandler<T>), ChannelError>
        ensures { (result ≡ Err ChannelError.ZeroCapacity) ↔ (self ≡ 0) }
    {
        RingSender::pair(alloc, self.capacity)
    }
}

impl Default for RingChannel {
    /// A channel for at most 256 unread items.
    fn default() -> RingChannel
        ensures { result ≡ DEFAULT_CAPACITY }
    {
        RingChannel::new(DEFAULT_CAPACITY)
    }
}

impl DefaultHandler {
    /// The two ends of the channel: the sender is a handler, and the receiver gives what it was handed.
    pub fn into_handler<T: Drop>(
        self,
        alloc: Global,
    ) -> Result<(FifoSender<T>, FifoChannelHandler<T>), ChannelError>
        ensures one { IfOk result (λ ends. fired_by ends.0 ≡ source_of ends.1) }
        ensures ok { IfOk result (λ ends. capacity_of ends.1 ≡ DEFAULT_CAPACITY) }
        ensures err { result ≢ Err ChannelError.ZeroCapacity }
    {
        FifoChannel::default().into_handler(alloc)
    }
}
