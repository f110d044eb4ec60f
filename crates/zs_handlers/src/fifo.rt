//! The two ends of a fifo's channel.
ghost use Rattle.std.specs.Prelude.{◌≡◌, ◌↔◌, [], IfOk, IfSome};
ghost use Rattle.futures.specs.Task.{Covers, Keeps};
ghost use Rattle.futures.specs.Poll.{OnPending};

use crate::clock::{left_of, moment_after};
use crate::error::{ChannelError, Disconnected};
use crate::fifo_queue::FifoQueue;
use crate::fifo_state::FifoState;
use crate::handler::{Handled, Handler, Took};
use crate::share::share;
use circular_buffer::HeapCircularBuffer;
use futures::spin::lock;
use futures::task::{Context, Poll, Source};
use std::alloc::Global;
use std::sync::{Arc, Condvar, CondvarTimeouts, Mutex, Wait};
use std::time::{Clock, Duration};
use zs_gate::{Drained, Inside};

// What the two ends share. An item that comes wakes one who waits at `filled` and the task that waits, one that goes wakes
// one who waits at `freed`, and the end wakes all.
#[derive(Drop)]
pub(crate) struct FifoShared<T: Drop> {
    // Fires where an item comes and at the end.
    pub(crate) source: Source,
    // What the channel was made with, so it is read without the lock.
    pub(crate) capacity: usize,
    state: Mutex<FifoState<T>>,
    filled: Condvar,
    freed: Condvar,
    // Who wants to drain waits here while another does.
    returned: Condvar,
}

/// The end of a fifo's channel that is handed items. One that finds the fifo full waits for room.
#[derive(Drop)]
pub struct FifoSender<T: Drop> {
    shared: Arc<FifoShared<T>, Global>,
}

/// The end of a fifo's channel that gives items. It is shared by reference.
///
/// One that is dropped isn't seen by the sender, which waits for ever once the fifo is full.
#[derive(Drop)]
pub struct FifoChannelHandler<T: Drop> {
    pub(crate) shared: Arc<FifoShared<T>, Global>,
}

impl<T: Drop> FifoShared<T> {
    // The state behind its lock, with a source of its own and no one who waits.
    fn new(state: FifoState<T>, capacity: usize) -> FifoShared<T>
        requires { state.queue.capacity ≡ capacity }
        ensures { result.capacity ≡ capacity }
    {
        FifoShared {
            source: Source::new(),
            capacity,
            state: Mutex::new(state),
            filled: Condvar::new(),
            freed: Condvar::new(),
            returned: Condvar::new(),
        }
    }

    // The first item, `None` where there is none yet. An item that is taken wakes one who waits for room.
    fn try_recv<R: Wait>(&self, rt: &R) -> Result<Option<T>, Disconnected> {
        let taken = self.state.lock(rt).take()?;
        if taken.is_some() {
            self.freed.notify_one();
        }
        Ok(taken)
    }

    // Waits for the first item, and wakes one who waits for room. It fails once the fifo is empty and has ended.
    fn recv<R: Wait>(&self, rt: &R) -> Result<T, Disconnected> {
        let mut state = self.state.lock(rt);
        for _ in rt.forever() {
            if let Some(item) = state.take()? {
                drop(state);
                self.freed.notify_one();
                return Ok(item);
            }
            state = self.filled.wait(rt, state);
        }
        unreachable!()
    }

    // `None` comes only after a take that found the fifo empty and not ended.
    fn recv_until<R: Wait + Clock>(
        &self,
        rt: &R,
        deadline: Duration,
    ) -> Result<Option<T>, Disconnected> {
        let mut state = self.state.lock(rt);
        for _ in rt.forever() {
            if let Some(item) = state.take()? {
                drop(state);
                self.freed.notify_one();
                return Ok(Some(item));
            }
            let Some(left) = left_of(rt, deadline) else {
                return Ok(None);
            };
            state = self.filled.wait_timeout(rt, state, left).0;
        }
        unreachable!()
    }

    // All items, once no one else drains. All who wait for room are woken.
    pub(crate) fn take_all<R: Wait>(&self, rt: &R) -> HeapCircularBuffer<T, Global> {
        let mut state = self.state.lock(rt);
        for _ in rt.forever() {
            if let Some(taken) = state.take_all() {
                drop(state);
                self.freed.notify_all();
                return taken;
            }
            state = self.returned.wait(rt, state);
        }
        unreachable!()
    }

    // Takes back the buffer of `take_all`. A drop has no handle, so it takes the lock without one.
    pub(crate) fn give_back(&self, empty: HeapCircularBuffer<T, Global>)
        requires { empty.items ≡ [] }
    {
        if let Some(mut state) = lock(&self.state) {
            state.give_back(empty);
        }
        self.returned.notify_one();
    }

    // The first item, the end, or the task's waker is left.
    pub(crate) fn poll<R: Wait>(
        &self,
        rt: &R,
        cx: &mut Context<'_>,
    ) -> Poll<Result<T, Disconnected>>
        ensures registered { OnPending result (Covers cx.new (λ s. s ≡ self.now.source.id)) }
        ensures kept { Keeps cx.old cx.new }
    {
        let polled = self.state.lock(rt).poll(cx, &self.source);
        if let Poll::Ready(Ok(_)) = &polled {
            self.freed.notify_one();
        }
        polled
    }
}

impl<T: Drop> FifoSender<T> {
    ghost use Rattle.zs_handlers.specs.Ends.{capacity_of, fired_by, source_of};

    // The two ends of a new channel.
    pub(crate) fn pair(
        alloc: Global,
        capacity: usize,
    ) -> Result<(FifoSender<T>, FifoChannelHandler<T>), ChannelError>
        ensures one { IfOk result (λ ends. fired_by ends.0 ≡ source_of ends.1) }
        ensures ok { IfOk result (λ ends. capacity_of ends.1 ≡ capacity) }
        ensures zero { (result ≡ Err ChannelError.ZeroCapacity) ↔ (capacity ≡ 0) }
    {
        let queue = FifoQueue::new(alloc, capacity)?;
        let spare = HeapCircularBuffer::with_capacity(alloc, capacity)?;
        let state = FifoState::new(queue, spare);
        let shared = share(alloc, FifoShared::new(state, capacity))?;
        let other = Arc::try_clone(&shared)?;
        Ok((FifoSender { shared: other }, FifoChannelHandler { shared }))
    }
}

impl<T: Drop> Handler<T> for FifoSender<T> {
    type Done = Took;

    // Only the item itself is given up.
    ghost gives = { λ _ item back. IfSome back (λ b. b ≡ item) };

    /// Appends the item, and waits for room where the fifo is full. Where the fifo has ended, the item itself comes back.
    fn on<R: Wait>(&self, rt: &R, _inside: &Inside, item: T) -> Handled<T, Took> {
        let shared = &*self.shared;
        let mut state = shared.state.lock(rt);
        let mut item = item;
        for _ in rt.forever() {
            if state.queue.is_disconnected() {
                return Handled::Evicted(item, Took::new());
            }
            match state.put(item) {
                Ok(waker) => {
                    drop(state);
                    drop(waker);
                    shared.filled.notify_one();
                    return Handled::Taken(Took::new());
                }
                Err(back) => item = back,
            }
            state = shared.freed.wait(rt, state);
        }
        unreachable!()
    }

    /// Ends the fifo, and wakes all who wait.
    fn ended<R: Wait>(&self, rt: &R, _drained: &Drained) -> Took {
        let waker = self.shared.state.lock(rt).end();
        drop(waker);
        self.shared.filled.notify_all();
        self.shared.freed.notify_all();
        Took::new()
    }
}

impl<T: Drop> FifoChannelHandler<T> {
    ghost use Rattle.zs_handlers.specs.Ends.{capacity_of};

    /// The first item; `None` where there is none yet.
    pub fn try_recv<R: Wait>(&self, rt: &R) -> Result<Option<T>, Disconnected> {
        self.shared.try_recv(rt)
    }

    /// The first item. It waits until there is one, or the callback ends.
    pub fn recv<R: Wait>(&self, rt: &R) -> Result<T, Disconnected> {
        self.shared.recv(rt)
    }

    /// As `recv`, until a moment of the runtime's clock, in milliseconds. `None` only where this call found the fifo empty
    /// and not ended. Nothing is claimed of time.
    pub fn recv_deadline<R: Wait + Clock>(
        &self,
        rt: &R,
        deadline: u64,
    ) -> Result<Option<T>, Disconnected> {
        self.shared.recv_until(rt, Duration::from_millis(deadline))
    }

    /// As `recv_deadline`, for a span of milliseconds.
    pub fn recv_timeout<R: Wait + Clock>(
        &self,
        rt: &R,
        timeout: u64,
    ) -> Result<Option<T>, Disconnected> {
        self.shared.recv_until(rt, moment_after(rt, timeout))
    }

    /// The number of items that can be received.
    pub fn len<R: Wait>(&self, rt: &R) -> usize {
        self.shared.state.lock(rt).queue.len()
    }

    /// The most items that the fifo can hold: what its channel was made with.
    pub fn capacity<R: Wait>(&self, _rt: &R) -> usize
        ensures { result ≡ capacity_of self.now }
    {
        self.shared.capacity
    }

    /// Whether no item can be received now.
    pub fn is_empty<R: Wait>(&self, rt: &R) -> bool {
        self.shared.state.lock(rt).queue.is_empty()
    }

    /// Whether a sender would wait for room.
    pub fn is_full<R: Wait>(&self, rt: &R) -> bool {
        self.shared.state.lock(rt).queue.is_full()
    }

    /// Whether the callback has ended. Items may be left.
    pub fn is_disconnected<R: Wait>(&self, rt: &R) -> bool {
        self.shared.state.lock(rt).queue.is_disconnected()
    }

    // Whether the callback has ended and no item is left.
    pub(crate) fn is_over<R: Wait>(&self, rt: &R) -> bool {
        self.shared.state.lock(rt).is_over()
    }
}
