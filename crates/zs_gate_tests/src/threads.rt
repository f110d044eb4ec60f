//! Threads that wait for room in a fifo, for an item, and for the end.

use crate::entering::Caller;
use crate::running::{Host, Running, Task};
use crate::words::{Word, comes, hold, stays, word};
use std::sync::Wait;
use std::sync::atomic::Ordering;
use zs_handlers::{FifoChannel, FifoChannelHandler, FifoSender};

// Who sends the items 1, 2 and 3, and the word that it stores in what was taken last.
struct Sending {
    caller: Caller,
    sender: FifoSender<u64>,
    last: Word,
}

impl Drop for Sending {
    /// Drops all parts. It is written out, so that no proof takes a sender apart where it goes.
    fn drop(self) {
        let Sending {
            caller: _,
            sender: _,
            last: _,
        } = self;
    }
}

impl Task for Sending {
    /// Whether all three items are taken; it stops at the first that isn't.
    fn run<R: Wait>(self, rt: &R) -> bool {
        for item in 1..4 {
            if !self.caller.hands(rt, &self.sender, item) {
                return false;
            }
            self.last.store(item, Ordering::SeqCst);
        }
        true
    }
}

// Whether the sender waits for room once two items are taken, and goes on once one was received.
fn waits_for_a_receive<R: Host>(
    rt: &R,
    caller: Caller,
    sender: FifoSender<u64>,
    receiver: &FifoChannelHandler<u64>,
) -> bool {
    let word = word(rt);
    let last = hold(rt, &word);
    let sending = Running::start(
        rt,
        Sending {
            caller,
            sender,
            last,
        },
    );
    let waits = (comes(rt, &word, 2), stays(rt, &word, 2));
    let received = receiver.try_recv(rt);
    (waits, received, sending.ends(rt)) == ((true, true), Ok(Some(1)), true)
}

/// A sender waits while its fifo is full, and goes on once an item was received.
#[test]
fn waits_for_room(rt: HostRuntime) {
    let ends = FifoChannel::new(2).into_handler(rt.alloc());
    let (sender, receiver) = ends.expect(&rt, "a fifo");
    let caller = Caller::new(&rt);
    assert!(rt; waits_for_a_receive(&rt, caller, sender, &receiver));
}

// Who receives, and the word that it stores in what came last.
struct Receiving {
    receiver: FifoChannelHandler<u64>,
    last: Word,
}

impl Drop for Receiving {
    /// Drops both parts. It is written out for the same reason as that of a sender.
    fn drop(self) {
        let Receiving {
            receiver: _,
            last: _,
        } = self;
    }
}

impl Task for Receiving {
    /// Receives up to the end, which it waits for.
    fn run<R: Wait>(self, rt: &R) -> bool {
        for item in self.receiver.iter(rt) {
            self.last.store(item, Ordering::SeqCst);
        }
        true
    }
}

// Whether the receiver waits for an item, and then for the end.
fn waits_for_a_send<R: Host>(
    rt: &R,
    caller: &Caller,
    sender: &FifoSender<u64>,
    receiver: FifoChannelHandler<u64>,
) -> bool {
    let word = word(rt);
    let last = hold(rt, &word);
    let receiving = Running::start(rt, Receiving { receiver, last });
    let waits = receiving.waits(rt);
    let takes = caller.hands(rt, sender, 1);
    let came = comes(rt, &word, 1);
    let _ = caller.ends(rt, sender);
    (waits, takes, came, receiving.ends(rt)) == (true, true, true, true)
}

/// A receiver waits while its fifo is empty: for an item, and then for the end.
#[test]
fn waits_for_an_item_and_the_end(rt: HostRuntime) {
    let ends = FifoChannel::new(2).into_handler(rt.alloc());
    let (sender, receiver) = ends.expect(&rt, "a fifo");
    let caller = Caller::new(&rt);
    assert!(rt; waits_for_a_send(&rt, &caller, &sender, receiver));
}
