//! Why a channel wasn't made, and why a receiver gets no more items.
use std::alloc::AllocError;
use std::error::Error;
use std::fmt;

/// Why no queue or channel was made.
#[derive(Clone, Copy, Debug, PartialEq, Eq)]
pub enum ChannelError {
    /// The capacity is 0.
    ZeroCapacity,
    /// There was no memory.
    NoMemory,
}

/// The callback of a fifo has ended, and no item is left.
#[derive(Clone, Copy, Debug, PartialEq, Eq)]
pub struct Disconnected;

/// The callback of a ring has ended. Its unread items are given to no reader.
#[derive(Clone, Copy, Debug, PartialEq, Eq)]
pub struct RingDeleted;

impl fmt::Display for ChannelError {
    /// Says in English why no channel was made.
    fn fmt<W: fmt::Write>(&self, f: &mut fmt::Formatter<W>) -> fmt::Result {
        f.write_str(match self {
            ChannelError::ZeroCapacity => "a channel needs room for an item",
            ChannelError::NoMemory => "out of memory",
        })
    }
}

impl Error for ChannelError {}

impl From<AllocError> for ChannelError {
    ghost use Rattle.std.specs.Prelude.{◌≡◌};
    ghost use Rattle.zs_handlers.specs.declared.error.ChannelError.TheVariants.{NoMemory};

    ghost from_gives = { λ _ why. why ≡ NoMemory };

    /// Want of memory is `NoMemory`, so that `?` hands it on.
    fn from(_error: AllocError) -> ChannelError {
        ChannelError::NoMemory
    }
}

impl fmt::Display for Disconnected {
    /// Says in English that the callback has ended and all items are gone.
    fn fmt<W: fmt::Write>(&self, f: &mut fmt::Formatter<W>) -> fmt::Result {
        f.write_str("the callback has ended, and no item is left")
    }
}

impl Error for Disconnected {}

impl fmt::Display for RingDeleted {
    /// Says in English that the callback has ended. Of unread items it says nothing.
    fn fmt<W: fmt::Write>(&self, f: &mut fmt::Formatter<W>) -> fmt::Result {
        f.write_str("the callback of the ring has ended")
    }
}

impl Error for RingDeleted {}
