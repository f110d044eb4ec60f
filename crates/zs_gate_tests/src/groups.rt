//! Groups of notifiers, and who waits for them.

use crate::notifiers::{given, is_refused};
use crate::running::{Host, Running, Task};
use std::sync::Wait;
use zs_gate::{Notifier, SyncGroup, Waited};

// Who waits for a group, and how it is to be answered.
#[derive(Drop)]
struct Waiter {
    group: SyncGroup,
    wanted: Waited,
}

impl Task for Waiter {
    /// Whether the wait is answered as it is to be.
    fn run<R: Wait>(self, rt: &R) -> bool {
        self.group.wait(rt) == self.wanted
    }
}

// A thread that waits for a group.
fn start<R: Host>(rt: &R, group: &SyncGroup, wanted: Waited) -> Running {
    let group = group.try_clone(rt.alloc()).expect(rt, "the group");
    Running::start(rt, Waiter { group, wanted })
}

// How many notifiers are out, and whether there are no more.
fn readings<R: Wait>(rt: &R, group: &SyncGroup) -> (u64, bool) {
    (group.num_active_notifiers(rt), group.is_closed())
}

// Whether a thread waits for a group until its only notifier is released.
fn wakes_at_a_release<R: Host>(rt: &R, group: &SyncGroup, notifier: Notifier) -> bool {
    let before = readings(rt, group);
    let waiter = start(rt, group, Waited::Drained);
    let waits = waiter.waits(rt);
    notifier.release(rt);
    let seen = (before, waits, waiter.ends(rt), readings(rt, group));
    seen == ((1, false), true, true, (0, true))
}

/// The release of the last notifier wakes who waits, and closes the group: no notifier is given then.
#[test]
fn wakes_who_waits_for_a_release(rt: HostRuntime) {
    let group = SyncGroup::new(rt.alloc()).expect(&rt, "a group");
    let notifier = given(&rt, group.notifier(&rt, rt.alloc()));
    assert!(rt; wakes_at_a_release(&rt, &group, notifier));
    assert!(rt; is_refused(&rt, group.notifier(&rt, rt.alloc())));
}

// Whether a thread waits for a group until that is closed, and who waits then is answered at once.
fn wakes_at_the_close<R: Host>(rt: &R, group: &SyncGroup) -> bool {
    let waiter = start(rt, group, Waited::WasClosed);
    let waits = waiter.waits(rt);
    group.close(rt);
    let seen = (waits, waiter.ends(rt), group.wait(rt), group.is_closed());
    seen == (true, true, Waited::WasClosed, true)
}

/// A close wakes who waits for a group, though a notifier is still out.
#[test]
fn wakes_who_waits_as_it_closes(rt: HostRuntime) {
    let group = SyncGroup::new(rt.alloc()).expect(&rt, "a group");
    let notifier = given(&rt, group.notifier(&rt, rt.alloc()));
    let wakes = wakes_at_the_close(&rt, &group);
    notifier.release(&rt);
    assert!(rt; wakes);
}
