//! A count of events, on which threads sleep.
use crate::post::LOW_HALF;
use std::sync::Wait;
use std::sync::atomic::{AtomicU64, Ordering};

/// How many events there were. A thread that waits for something reads the count, then looks whether what it waits for
/// is there, and else sleeps on the count that it read: no event in between is lost.
#[derive(Drop)]
pub struct Events {
    count: AtomicU64,
}

impl Events {
    /// A count of no events.
    pub fn new() -> Events {
        Events {
            count: AtomicU64::new(0),
        }
    }

    /// How many events there were.
    pub fn count(&self) -> u64 {
        self.count.load(Ordering::SeqCst)
    }

    /// One event more. It wakes all who sleep.
    pub fn tell(&self) {
        self.count.fetch_add(1, Ordering::SeqCst);
        self.count.wake_all();
    }

    /// Sleeps until there is an event after the `seen` ones. It may also return for no reason.
    pub fn sleep<R: Wait>(&self, rt: &R, seen: u64) {
        self.count.park(rt, (seen & LOW_HALF) as u32);
    }
}
