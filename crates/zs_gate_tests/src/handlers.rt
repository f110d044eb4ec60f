//! A handler of a program's own.
ghost use Rattle.std.specs.Prelude.{◌≡◌, false, IsSome};

use crate::entering::Caller;
use std::sync::Wait;
use std::sync::atomic::{AtomicU64, Ordering};
use zs_gate::{Drained, Inside};
use zs_handlers::{Handled, Handler};

// Adds the items up, and gives none up.
#[derive(Drop)]
struct Sum(AtomicU64);

impl Handler<u64> for Sum {
    type Done = u64;

    ghost use Rattle.std.specs.Prelude.{false};

    ghost evicts = { false };

    /// Adds the item, and tells the sum before it.
    fn on<R: Wait>(&self, _rt: &R, _inside: &Inside, item: u64) -> Handled<u64, u64> {
        Handled::Taken(self.0.fetch_add(item, Ordering::SeqCst))
    }

    /// Tells the sum of all items.
    fn ended<R: Wait>(&self, _rt: &R, _drained: &Drained) -> u64 {
        self.0.load(Ordering::SeqCst)
    }
}

// What the handler tells of an item that it takes: all of them, if it gives none up.
fn done_of<R: Wait, H: Handler<u64>>(
    rt: &R,
    caller: &Caller,
    handler: &H,
    item: u64,
) -> Option<H::Done>
    ensures { H.evicts ≡ false → IsSome result }
{
    match handler.on(rt, caller.inside(), item) {
        Handled::Taken(done) => Some(done),
        Handled::Evicted(_, _) => None,
    }
}

/// A handler of a program's own takes each item, and tells its result by the call and at the end.
#[test]
fn takes_each_item(rt: HostRuntime) {
    let caller = Caller::new(&rt);
    let sum = Sum(AtomicU64::new(0));
    let before = done_of(&rt, &caller, &sum, 3).unwrap();
    let then = done_of(&rt, &caller, &sum, 4).unwrap();
    assert!(rt; (before, then, caller.ends(&rt, &sum)) == (0, 3, 7));
}
