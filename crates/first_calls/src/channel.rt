//! Channels as handlers.
use crate::trouble::Trouble;
use std::alloc::{AllocError, Global};
use std::sync::Arc;
use zs_cell::Item;
use zs_handlers::{FifoChannel, FifoChannelHandler, FifoSender};

/// A channel with room for 16 items: the end that is a handler, and the end that gives what it was handed.
pub(crate) fn channel(
    alloc: Global,
) -> Result<(Arc<FifoSender<Item>>, FifoChannelHandler<Item>), Trouble> {
    let (sender, receiver) = FifoChannel::new(16).into_handler(alloc)?;
    match Arc::new(alloc, sender) {
        Ok(sender) => Ok((sender, receiver)),
        Err(_) => Err(Trouble::Memory(AllocError)),
    }
}
