//! The two ends of a ring's channel.
ghost use Rattle.std.specs.Prelude.{◌≡◌, ◌↔◌};

use crate::clock::{left_of, moment_after};
use crate::error::{ChannelError, RingDeleted};
use crate::handler::{Handled, Handler, Took};
use crate::ring_queue::RingQueue;
use crate::share::share;
use std::alloc::Global;
use std::sync::{Arc, Condvar, CondvarTimeouts, Mutex, Wait};
use std::time::{Clock, Duration};
use zs_gate::{Drained, Inside};

// What the two ends share. An item that comes wakes one who waits at `filled`, and the end wakes all.
#[derive(Drop)]
struct RingShared<T: Drop> {
    queue: Mutex<RingQueue<T>>,
    filled: Condvar,
}

/// The end of a ring's channel that is handed items. It never waits for room.
#[derive(Drop)]
pub struct RingSender<T: Drop> {
    shared: Arc<RingShared<T>, Global>,
}

/// The end of a ring's channel that gives items. It is shared by reference.
#[derive(Drop)]
pub struct RingChannelHandler<T: Drop> {
    shared: Arc<RingShared<T>, Global>,
}

impl<T: Drop> RingShared<T> {
    // The ring behind its lock, with no one who waits.
    fn new(queue: RingQueue<T>) -> RingShared<T> {
        RingShared {
            queue: Mutex::new(queue),
            filled: Condvar::new(),
        }
    }

    // The oldest item, once there is one. It fails once the ring has ended, whatever it still holds.
    fn recv<R: Wait>(&self, rt: &R) -> Result<T, RingDeleted> {
        let mut queue = self.queue.lock(rt);
        for _ in rt.forever() {
            if let Some(item) = queue.try_recv()? {
                return Ok(item);
            }
            queue = self.filled.wait(rt, queue);
        }
        unreachable!()
    }

    // `None` comes only after a receive that found the ring empty and not ended.
    fn recv_until<R: Wait + Clock>(
        &self,
        rt: &R,
        deadline: Duration,
    ) -> Result<Option<T>, RingDeleted> {
        let mut queue = self.queue.lock(rt);
        for _ in rt.forever() {
            if let Some(item) = queue.try_recv()? {
                return Ok(Some(item));
            }
            let Some(left) = left_of(rt, deadline) else {
                return Ok(None);
            };
            queue = self.filled.wait_timeout(rt, queue, left).0;
        }
        unreachable!()
    }
}

impl<T: Drop> RingSender<T> {
    // The two ends of a new channel.
    pub(crate) fn pair(
        alloc: Global,
        capacity: usize,
    ) -> Result<(RingSender<T>, RingChannelHandler<T>), ChannelError>
        ensures { (result ≡ Err ChannelError.ZeroCapacity) ↔ (capacity ≡ 0) }
    {
        let queue = RingQueue::new(alloc, capacity)?;
        let shared = share(alloc, RingShared::new(queue))?;
        let other = Arc::try_clone(&shared)?;
        Ok((RingSender { shared: other }, RingChannelHandler { shared }))
    }
}

impl<T: Drop> Handler<T> for RingSender<T> {
    type Done = Took;

    /// Appends the item; where the ring is full, its oldest item is given up. Where the ring has ended, the item itself
    /// comes back.
    fn on<R: Wait>(&self, rt: &R, _inside: &Inside, item: T) -> Handled<T, Took> {
        let mut queue = self.shared.queue.lock(rt);
        if queue.is_disconnected() {
            return Handled::Evicted(item, Took::new());
        }
        let oldest = queue.push(item);
        drop(queue);
        self.shared.filled.notify_one();
        match oldest {
            Some(oldest) => Handled::Evicted(oldest, Took::new()),
            None => Handled::Taken(Took::new()),
        }
    }

    /// Ends the ring, and wakes all who wait.
    fn ended<R: Wait>(&self, rt: &R, _drained: &Drained) -> Took {
        self.shared.queue.lock(rt).end();
        self.shared.filled.notify_all();
        Took::new()
    }
}

impl<T: Drop> RingChannelHandler<T> {
    /// The oldest item; `None` where there is none yet. Once the callback has ended, it gives none.
    pub fn try_recv<R: Wait>(&self, rt: &R) -> Result<Option<T>, RingDeleted> {
        self.shared.queue.lock(rt).try_recv()
    }

    /// The oldest item. It waits until there is one, or the callback ends.
    pub fn recv<R: Wait>(&self, rt: &R) -> Result<T, RingDeleted> {
        self.shared.recv(rt)
    }

    /// As `recv`, until a moment of the runtime's clock, in milliseconds. `None` only where this call found the ring empty
    /// and not ended. Nothing is claimed of time.
    pub fn recv_deadline<R: Wait + Clock>(
        &self,
        rt: &R,
        deadline: u64,
    ) -> Result<Option<T>, RingDeleted> {
        self.shared.recv_until(rt, Duration::from_millis(deadline))
    }

    /// As `recv_deadline`, for a span of milliseconds.
    pub fn recv_timeout<R: Wait + Clock>(
        &self,
        rt: &R,
        timeout: u64,
    ) -> Result<Option<T>, RingDeleted> {
        self.shared.recv_until(rt, moment_after(rt, timeout))
    }

    /// The oldest of the items that no reader gets any more. `None` where there is none left, or the callback hasn't ended.
    pub fn take_left<R: Wait>(&self, rt: &R) -> Option<T> {
        let mut queue = self.shared.queue.lock(rt);
        if !queue.is_disconnected() {
            return None;
        }
        queue.take_left()
    }
}
