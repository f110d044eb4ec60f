//! Gates that drain, and keep late passes outside.
ghost use Rattle.std.specs.Prelude.{◌≡◌};

use crate::entering::enter;
use crate::running::{Host, Running, Task};
use std::sync::Wait;
use zs_gate::{Door, Draining, Gate, Inside, Keeper, Pass};

// Whether a pass comes back from a gate. The door takes it back.
fn comes_back(door: &mut Door, pass: Pass) -> bool
    requires { pass.gate ≡ door.old.gate }
    ensures { door.new.gate ≡ door.old.gate }
{
    match pass.enter() {
        Ok(inside) => {
            drop(inside);
            false
        }
        Err(pass) => {
            door.take_back(pass);
            true
        }
    }
}

// Whether a look finds no one inside.
fn is_drained(draining: Draining) -> bool {
    match draining.look() {
        Ok(drained) => {
            drop(drained);
            true
        }
        Err(draining) => {
            drop(draining);
            false
        }
    }
}

/// A pass that comes while a gate drains stays outside, and the gate has drained once the one inside left.
#[test]
fn keeps_late_passes_outside(rt: HostRuntime) {
    let (mut door, keeper) = Gate::open(rt.alloc()).expect(&rt, "a gate");
    let late = door.pass().expect(&rt, "a pass");
    let inside = enter(&rt, &mut door);
    let draining = keeper.drain().look().err().expect(&rt, "one is inside");
    let came_back = comes_back(&mut door, late);
    door.take_back(inside.leave());
    assert!(rt; (came_back, is_drained(draining)) == (true, true));
}

// Who waits until no one is inside.
#[derive(Drop)]
struct Waiting(Draining);

impl Task for Waiting {
    /// Waits; that the wait ends is all there is to see.
    fn run<R: Wait>(self, rt: &R) -> bool {
        drop(self.0.wait(rt));
        true
    }
}

// Whether a thread that drains a gate waits until the only one inside has left.
fn wakes_at_a_leave<R: Host>(rt: &R, keeper: Keeper, inside: Inside) -> bool {
    let waiting = Running::start(rt, Waiting(keeper.drain()));
    let waits = waiting.waits(rt);
    drop(inside.leave());
    (waits, waiting.ends(rt)) == (true, true)
}

/// A thread that drains a gate waits until the one inside, who is on another thread, has left.
#[test]
fn waits_for_another_thread(rt: HostRuntime) {
    let (mut door, keeper) = Gate::open(rt.alloc()).expect(&rt, "a gate");
    let inside = enter(&rt, &mut door);
    assert!(rt; wakes_at_a_leave(&rt, keeper, inside));
}
