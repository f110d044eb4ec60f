//! A lock that knows its value.

use crate::running::{Running, Task};
use std::alloc::Global;
use std::sync::{Arc, Wait};
use zs_gate::{Fact, KeyedLock};

// The value of the lock is never below its key.
struct AtLeast;

impl Fact<u64, u64> for AtLeast {
    ghost use Rattle.std.specs.Prelude.{◌≤◌};

    ghost holds = { λ key value. key ≤ value };
}

type Lock = KeyedLock<u64, u64, AtLeast>;

// Each of two threads adds 1 as often.
const TURNS: u32 = 10_000;

// Adds 1 as often as there are turns.
fn count<R: Wait>(rt: &R, lock: &Lock) {
    for _ in 0..TURNS {
        let (value, taken) = lock.take(rt);
        taken.put(value.saturating_add(1));
    }
}

// Who counts in a thread.
#[derive(Drop)]
struct Counter(Arc<Lock, Global>);

impl Task for Counter {
    /// Counts, and leaves it to the test to look at the sum.
    fn run<R: Wait>(self, rt: &R) -> bool {
        count(rt, &self.0);
        true
    }
}

// What the lock holds.
fn value<R: Wait>(rt: &R, lock: &Lock) -> u64 {
    let (value, taken) = lock.take(rt);
    taken.put(value);
    value
}

/// No turn of two threads that count under one lock is lost.
#[test]
fn is_held_by_one_thread_at_a_time(rt: HostRuntime) {
    let lock = KeyedLock::new(rt.alloc(), &100, 100).expect(&rt, "a lock");
    let lock = Arc::new(rt.alloc(), lock).expect(&rt, "a shared lock");
    let theirs = Arc::try_clone(&lock).expect(&rt, "the lock");
    let other = Running::start(&rt, Counter(theirs));
    count(&rt, &lock);
    assert!(rt; (other.ends(&rt), value(&rt, &lock)) == (true, 20_100));
}
