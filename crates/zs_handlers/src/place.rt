//! Where a future or a stream has its receiver.
ghost use Rattle.std.specs.Prelude.{◌≡◌};
ghost use Rattle.zs_handlers.specs.Ends.{source_at, source_of, capacity_at, capacity_of};

use crate::fifo::FifoChannelHandler;

/// A receiver that was lent or given up.
#[derive(Drop)]
pub(crate) enum Place<'a, T: Drop> {
    Lent(&'a FifoChannelHandler<T>),
    Own(FifoChannelHandler<T>),
}

impl<T: Drop> Place<'_, T> {
    // The receiver, whoever owns it.
    pub(crate) fn handler(&self) -> &FifoChannelHandler<T>
        ensures source { source_of result.now ≡ source_at self.now }
        ensures capacity { capacity_of result.now ≡ capacity_at self.now }
    {
        match self {
            Place::Lent(handler) => handler,
            Place::Own(handler) => handler,
        }
    }
}
