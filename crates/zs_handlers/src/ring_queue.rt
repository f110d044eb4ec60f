//! A queue that keeps its newest items: once it is full, a push gives up the oldest one.
ghost use Rattle.std.specs.Prelude.{◌≡◌, ◌<◌, ◌≤◌, ◌↔◌, true, false, [], ◌∷◌, ◌++◌, length, drop, slice_get, IsTrue, IsSome, IsErr, IfOk, IfSome, IfNone, OnErr};
ghost use Rattle.zs_handlers.specs.Queue.{queue};

use crate::error::{ChannelError, RingDeleted};
use circular_buffer::HeapCircularBuffer;
use std::alloc::Global;
use std::marker::Model;

/// A ring of a fixed capacity. Contracts see its items, the oldest first, its capacity, and whether its callback has ended.
pub struct RingQueue<T> {
    buffer: HeapCircularBuffer<T, Global>,
    has_ended: bool,
}

impl<T> Model for RingQueue<T> {
    ghost use Rattle.std.specs.Prelude.{◌<◌, ◌≤◌, length};
    ghost use Rattle.zs_handlers.specs.Queue.{Queue, queue, queue_code};

    ghost Value = { Queue T };

    ghost coded = { queue_code T.code };

    ghost view = { λ q. queue q.buffer.items q.buffer.capacity q.has_ended };

    ghost invariant = { λ q. (0 < q.buffer.capacity) × (length q.buffer.items ≤ q.buffer.capacity) };
}

impl<T> RingQueue<T> {
    /// An empty ring for at most `capacity` items.
    pub fn new(alloc: Global, capacity: usize) -> Result<Self, ChannelError>
        ensures ok { IfOk result (λ made. made ≡ queue [] capacity false) }
        ensures zero { (result ≡ Err ChannelError.ZeroCapacity) ↔ (capacity ≡ 0) }
    {
        if capacity == 0 {
            return Err(ChannelError::ZeroCapacity);
        }
        let buffer = HeapCircularBuffer::with_capacity(alloc, capacity)?;
        Ok(RingQueue {
            buffer,
            has_ended: false,
        })
    }

    /// Appends an item. A full ring gives up its oldest one, which is returned.
    pub fn push(&mut self, item: T) -> Option<T>
        requires { self.old.ended ≡ false }
        ensures same { self.new ≡ record self.old { items = self.new.items } }
        ensures full { IsSome result ↔ (length self.old.items ≡ self.old.capacity) }
        ensures first { IfSome result (λ first. first ∷ self.new.items ≡ self.old.items ++ item ∷ []) }
        ensures all { IfNone result (self.new.items ≡ self.old.items ++ item ∷ []) }
    {
        self.buffer.push_back(item)
    }

    /// Takes the oldest item, until the callback has ended. `None` where there is none yet.
    pub fn try_recv(&mut self) -> Result<Option<T>, RingDeleted>
        ensures ok { IfOk result (λ first. (first ≡ slice_get self.old.items 0) × (self.new ≡ record self.old { items = drop 1 self.old.items })) }
        ensures none { (result ≡ Ok None) ↔ ((self.old.items ≡ []) × (self.old.ended ≡ false)) }
        ensures deleted { IsErr result ↔ (self.old.ended ≡ true) }
        ensures err { OnErr result (self.new ≡ self.old) }
    {
        if self.has_ended {
            return Err(RingDeleted);
        }
        Ok(self.buffer.pop_front())
    }

    /// Takes the oldest of the items that no reader gets any more, since the callback has ended.
    pub fn take_left(&mut self) -> Option<T>
        requires { self.old.ended ≡ true }
        ensures first { result ≡ slice_get self.old.items 0 }
        ensures items { self.new ≡ record self.old { items = drop 1 self.old.items } }
    {
        self.buffer.pop_front()
    }

    /// Tells that the callback has ended: nothing is pushed any more, and what is left is handed out by `take_left` alone.
    pub fn end(&mut self)
        ensures { self.new ≡ record self.old { ended = true } }
    {
        self.has_ended = true;
    }

    /// The number of items.
    pub fn len(&self) -> usize
        ensures { result ≡ length self.now.items }
    {
        self.buffer.len()
    }

    /// The most items that it can hold, at least 1.
    pub fn capacity(&self) -> usize
        ensures capacity { result ≡ self.now.capacity }
        ensures within { (0 < result) × (length self.now.items ≤ result) }
    {
        self.buffer.capacity()
    }

    /// Whether it holds no item.
    pub fn is_empty(&self) -> bool
        ensures { IsTrue result ↔ (self.now.items ≡ []) }
    {
        self.buffer.is_empty()
    }

    /// Whether it holds as many items as it can.
    pub fn is_full(&self) -> bool
        ensures { IsTrue result ↔ (length self.now.items ≡ self.now.capacity) }
    {
        self.buffer.is_full()
    }

    /// Whether its callback has ended.
    pub fn is_disconnected(&self) -> bool
        ensures { result ≡ self.now.ended }
    {
        self.has_ended
    }
}

impl<T: Drop> Drop for RingQueue<T> {
    /// Drops the items that are left, and their buffer.
    fn drop(self) {
        let RingQueue {
            buffer: _,
            has_ended: _,
        } = self;
    }
}
