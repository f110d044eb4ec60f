//! A queue that keeps its items in order, and is full once it holds as many as it can.
ghost use Rattle.std.specs.Prelude.{◌≡◌, ◌<◌, ◌≤◌, ◌↔◌, true, false, [], ◌∷◌, ◌++◌, length, drop, slice_get, IsTrue, IsErr, IfOk, IfSome, IfErr, OnOk, OnErr};
ghost use Rattle.circular_buffer.specs.Buffer.{buffer};
ghost use Rattle.zs_handlers.specs.Queue.{queue};

use crate::error::{ChannelError, Disconnected};
use circular_buffer::HeapCircularBuffer;
use std::alloc::Global;
use std::marker::Model;
use std::mem;

/// A queue of a fixed capacity. Contracts see its items, the first to come first, its capacity, and whether its callback
/// has ended.
pub struct FifoQueue<T> {
    buffer: HeapCircularBuffer<T, Global>,
    has_ended: bool,
}

impl<T> Model for FifoQueue<T> {
    ghost use Rattle.std.specs.Prelude.{◌<◌, ◌≤◌, length};
    ghost use Rattle.zs_handlers.specs.Queue.{Queue, queue, queue_code};

    ghost Value = { Queue T };

    ghost coded = { queue_code T.code };

    ghost view = { λ q. queue q.buffer.items q.buffer.capacity q.has_ended };

    ghost invariant = { λ q. (0 < q.buffer.capacity) × (length q.buffer.items ≤ q.buffer.capacity) };
}

impl<T> FifoQueue<T> {
    /// An empty queue for at most `capacity` items.
    pub fn new(alloc: Global, capacity: usize) -> Result<Self, ChannelError>
        ensures ok { IfOk result (λ made. made ≡ queue [] capacity false) }
        ensures zero { (result ≡ Err ChannelError.ZeroCapacity) ↔ (capacity ≡ 0) }
    {
        if capacity == 0 {
            return Err(ChannelError::ZeroCapacity);
        }
        let buffer = HeapCircularBuffer::with_capacity(alloc, capacity)?;
        Ok(FifoQueue {
            buffer,
            has_ended: false,
        })
    }

    /// Appends an item. A full queue hands it back.
    pub fn try_push(&mut self, item: T) -> Result<(), T>
        requires { self.old.ended ≡ false }
        ensures full { IsErr result ↔ (length self.old.items ≡ self.old.capacity) }
        ensures ok { OnOk result (self.new ≡ record self.old { items = self.old.items ++ item ∷ [] }) }
        ensures err { IfErr result (λ back. (back ≡ item) × (self.new ≡ self.old)) }
    {
        self.buffer.try_push_back(item)
    }

    /// Takes the first item. `None` where there is none yet.
    pub fn try_recv(&mut self) -> Result<Option<T>, Disconnected>
        ensures items { self.new ≡ record self.old { items = drop 1 self.old.items } }
        ensures ok { IfOk result (λ first. first ≡ slice_get self.old.items 0) }
        ensures none { (result ≡ Ok None) ↔ ((self.old.items ≡ []) × (self.old.ended ≡ false)) }
        ensures disconnected { IsErr result ↔ ((self.old.items ≡ []) × (self.old.ended ≡ true)) }
    {
        match self.buffer.pop_front() {
            Some(first) => Ok(Some(first)),
            None if self.has_ended => Err(Disconnected),
            None => Ok(None),
        }
    }

    /// Tells that the callback has ended: nothing is pushed any more, and what is there can still be received.
    pub fn end(&mut self)
        ensures { self.new ≡ record self.old { ended = true } }
    {
        self.has_ended = true;
    }

    // Takes all items with their buffer, and goes on with an empty one of its size.
    pub(crate) fn exchange(
        &mut self,
        empty: HeapCircularBuffer<T, Global>,
    ) -> HeapCircularBuffer<T, Global>
        requires { empty ≡ buffer [] self.old.capacity }
        ensures all { result ≡ buffer self.old.items self.old.capacity }
        ensures empty { self.new ≡ record self.old { items = [] } }
    {
        mem::replace(&mut self.buffer, empty)
    }

    /// The number of items.
    pub fn len(&self) -> usize
        ensures { result ≡ length self.now.items }
    {
        self.buffer.len()
    }

    /// The most items that it can hold, at least 1.
    pub fn capacity(&self) -> usize
        ensures capacity { result ≡ self.now.capacity }
        ensures within { (0 < result) × (length self.now.items ≤ result) }
    {
        self.buffer.capacity()
    }

    /// Whether it holds no item.
    pub fn is_empty(&self) -> bool
        ensures { IsTrue result ↔ (self.now.items ≡ []) }
    {
        self.buffer.is_empty()
    }

    /// Whether it holds as many items as it can.
    pub fn is_full(&self) -> bool
        ensures { IsTrue result ↔ (length self.now.items ≡ self.now.capacity) }
    {
        self.buffer.is_full()
    }

    /// Whether its callback has ended.
    pub fn is_disconnected(&self) -> bool
        ensures { result ≡ self.now.ended }
    {
        self.has_ended
    }
}

impl<T: Drop> Drop for FifoQueue<T> {
    /// Drops the items that are left, and their buffer.
    fn drop(self) {
        let FifoQueue {
            buffer: _,
            has_ended: _,
        } = self;
    }
}
