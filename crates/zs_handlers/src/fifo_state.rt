//! What lies under the lock of a fifo's channel.
ghost use Rattle.std.specs.Prelude.{◌≡◌, ◌<◌, ◌↔◌, true, false, [], ◌∷◌, ◌++◌, length, drop, slice_get, None, Some, IsErr, IfOk, IfErr, IfSome, IfNone, OnOk, OnErr};
ghost use Rattle.std.specs.Option.{ForSome};
ghost use Rattle.circular_buffer.specs.Buffer.{buffer};
ghost use Rattle.futures.specs.Task.{Covers, Keeps};
ghost use Rattle.futures.specs.Poll.{IfReady, OnPending};

use crate::error::Disconnected;
use crate::fifo_queue::FifoQueue;
use circular_buffer::HeapCircularBuffer;
use futures::task::{Context, Poll, Source, Waker};
use std::alloc::Global;

/// A fifo, the waker of the task that waits for an item, and a second buffer, which is there while no one drains the fifo.
/// A waker is kept only while there is nothing to receive.
#[derive(Drop)]
pub(crate) struct FifoState<T: Drop> {
    pub(crate) queue: FifoQueue<T>,
    waker: Option<Waker>,
    spare: Option<HeapCircularBuffer<T, Global>>,
    ghost spare_fits: { ForSome spare (λ b. b ≡ buffer [] queue.capacity) },
    ghost woken_by_item: { 0 < length queue.items → waker ≡ None },
    ghost woken_by_end: { queue.ended ≡ true → waker ≡ None },
}

impl<T: Drop> FifoState<T> {
    ghost use Rattle.zs_handlers.specs.Polled.{IsLeftIn};

    // A fifo for which no task waits, and that no one drains: the second buffer is there.
    pub(crate) fn new(queue: FifoQueue<T>, spare: HeapCircularBuffer<T, Global>) -> Self
        requires { spare ≡ buffer [] queue.capacity }
        ensures { result.queue ≡ queue }
    {
        FifoState {
            queue,
            waker: None,
            spare: Some(spare),
        }
    }

    // Appends an item, and gives out the waker of the task that waits for it. A full fifo hands the item back.
    pub(crate) fn put(&mut self, item: T) -> Result<Option<Waker>, T>
        requires { self.old.queue.ended ≡ false }
        ensures full { IsErr result ↔ (length self.old.queue.items ≡ self.old.queue.capacity) }
        ensures ok { IfOk result (λ waker. (waker ≡ self.old.waker) × (self.new.queue ≡ record self.old.queue { items = self.old.queue.items ++ item ∷ [] })) }
        ensures err { IfErr result (λ back. (back ≡ item) × (self.new ≡ self.old)) }
    {
        self.queue.try_push(item)?;
        Ok(self.waker.take())
    }

    // Takes the first item, `None` where there is none yet. It leaves the waker as it is.
    pub(crate) fn take(&mut self) -> Result<Option<T>, Disconnected>
        ensures items { self.new.queue ≡ record self.old.queue { items = drop 1 self.old.queue.items } }
        ensures ok { IfOk result (λ first. first ≡ slice_get self.old.queue.items 0) }
        ensures disconnected { IsErr result ↔ ((self.old.queue.items ≡ []) × (self.old.queue.ended ≡ true)) }
    {
        self.queue.try_recv()
    }

    // Ends the fifo, and gives out the waker of the task that waits for the end.
    pub(crate) fn end(&mut self) -> Option<Waker>
        ensures waker { result ≡ self.old.waker }
        ensures queue { self.new.queue ≡ record self.old.queue { ended = true } }
    {
        let waker = self.waker.take();
        self.queue.end();
        waker
    }

    // Takes the first item, or leaves the task's waker. It is pending only where the fifo is empty and has not ended.
    pub(crate) fn poll(
        &mut self,
        cx: &mut Context<'_>,
        source: &Source,
    ) -> Poll<Result<T, Disconnected>>
        ensures pending { (result ≡ Poll.Pending) ↔ ((self.old.queue.items ≡ []) × (self.old.queue.ended ≡ false)) }
        ensures items { self.new.queue ≡ record self.old.queue { items = drop 1 self.old.queue.items } }
        ensures ready { IfReady result (λ answer. IfOk answer (λ item. slice_get self.old.queue.items 0 ≡ Some item)) }
        ensures left { OnPending result (IsLeftIn cx.old cx.new self.new.waker) }
        ensures registered { OnPending result (Covers cx.new (λ s. s ≡ source.now.id)) }
        ensures kept { Keeps cx.old cx.new }
    {
        match self.queue.try_recv() {
            Ok(Some(item)) => Poll::Ready(Ok(item)),
            Ok(None) => cx.register(source, &mut self.waker),
            Err(gone) => Poll::Ready(Err(gone)),
        }
    }

    // Takes all items at once, with their buffer. `None` while the second buffer is out.
    pub(crate) fn take_all(&mut self) -> Option<HeapCircularBuffer<T, Global>>
        ensures all { IfSome result (λ taken. (taken ≡ buffer self.old.queue.items self.old.queue.capacity) × (self.new.queue ≡ record self.old.queue { items = [] })) }
        ensures none { IfNone result (self.new.queue ≡ self.old.queue) }
    {
        let spare = self.spare.take()?;
        Some(self.queue.exchange(spare))
    }

    // Takes back an empty buffer that was drained.
    pub(crate) fn give_back(&mut self, empty: HeapCircularBuffer<T, Global>)
        requires { empty.items ≡ [] }
        ensures { self.new.queue ≡ self.old.queue }
    {
        if empty.capacity() == self.queue.capacity() {
            self.spare = Some(empty);
        }
    }

    // Whether nothing is there, nor ever will be.
    pub(crate) fn is_over(&self) -> bool
        ensures { (result ≡ true) ↔ ((self.now.queue.items ≡ []) × (self.now.queue.ended ≡ true)) }
    {
        self.queue.is_disconnected() && self.queue.is_empty()
    }
}
