//! Channels: what their receivers answer, and until when they wait.

use crate::entering::{Channel, Fifo, Ring, fifo, ring};
use std::sync::Wait;
use std::time::Clock;
use zs_handlers::{DefaultHandler, Disconnected, FifoChannelHandler, RingDeleted};

/// A fifo gives its items in order, those that are left even after the end, and takes none from then on.
#[test]
fn hands_items_through_a_fifo(rt: HostRuntime) {
    let fifo = fifo(&rt);
    assert!(rt; fills(&rt, &fifo), "a fifo of two items");
    assert!(rt; fifo.receiver.recv_deadline(&rt, 0) == Ok(Some(1)));
    fifo.ends(&rt);
    assert!(rt; empties(&rt, &fifo), "a fifo that has ended");
}

// Whether a fifo of two items has none, not even after a while, and then takes two.
fn fills<R: Wait + Clock>(rt: &R, fifo: &Fifo) -> bool {
    let seen = (
        fifo.receiver.try_recv(rt),
        fifo.receiver.recv_timeout(rt, 2),
        fifo.takes(rt, 1),
        fifo.takes(rt, 2),
        fifo.receiver.is_full(rt),
        fifo.receiver.len(rt),
        fifo.receiver.capacity(rt),
    );
    seen == (Ok(None), Ok(None), true, true, true, 2, 2)
}

// Whether a fifo that has ended gives the item that is left, then the end, and takes nothing more.
fn empties<R: Wait>(rt: &R, fifo: &Fifo) -> bool {
    let seen = (
        fifo.receiver.is_disconnected(rt),
        fifo.receiver.is_empty(rt),
        fifo.receiver.recv(rt),
        fifo.receiver.recv(rt),
        fifo.takes(rt, 3),
    );
    seen == (true, false, Ok(2), Err(Disconnected), false)
}

/// A full ring gives its oldest item up for a new one; after the end `take_left` alone gives what is left.
#[test]
fn hands_items_through_a_ring(rt: HostRuntime) {
    let ring = ring(&rt);
    assert!(rt; turns(&rt, &ring), "a ring of two items");
    assert!(rt; gives_the_rest(&rt, &ring), "a ring of two items");
    ring.ends(&rt);
    assert!(rt; leaves_the_last(&rt, &ring), "a ring that has ended");
}

// Whether a ring of two items has none, not even after a while, and then takes three, of which the first makes room.
fn turns<R: Wait + Clock>(rt: &R, ring: &Ring) -> bool {
    let seen = (
        ring.receiver.try_recv(rt),
        ring.receiver.recv_timeout(rt, 2),
        ring.takes(rt, 1),
        ring.takes(rt, 2),
        ring.takes(rt, 3),
    );
    seen == (Ok(None), Ok(None), true, true, false)
}

// Whether a ring gives the items 2 and 3, and takes another one, which isn't left before the end.
fn gives_the_rest<R: Wait + Clock>(rt: &R, ring: &Ring) -> bool {
    let seen = (
        ring.receiver.recv_deadline(rt, 0),
        ring.receiver.recv(rt),
        ring.takes(rt, 4),
        ring.receiver.take_left(rt),
    );
    seen == (Ok(Some(2)), Ok(3), true, None)
}

// Whether a ring that has ended gives the item that is left to nobody but who asks for those.
fn leaves_the_last<R: Wait>(rt: &R, ring: &Ring) -> bool {
    let seen = (
        ring.receiver.recv(rt),
        ring.receiver.take_left(rt),
        ring.receiver.take_left(rt),
    );
    seen == (Err(RingDeleted), Some(4), None)
}

/// Iterators and a drain of the default fifo give its items in order, and have no more once all are given.
#[test]
fn goes_through_items(rt: HostRuntime) {
    let fifo = Channel::new(&rt, DefaultHandler.into_handler(rt.alloc()));
    assert!(rt; takes_four(&rt, &fifo));
    assert!(rt; goes_through_two(&rt, &fifo));
    assert!(rt; drains_two(&rt, &fifo));
    fifo.ends(&rt);
    assert!(rt; has_no_more(&rt, fifo.into_receiver()));
}

// Whether the fifo takes the items 1 to 4.
fn takes_four<R: Wait>(rt: &R, fifo: &Fifo) -> bool {
    let seen = (
        fifo.takes(rt, 1),
        fifo.takes(rt, 2),
        fifo.takes(rt, 3),
        fifo.takes(rt, 4),
    );
    seen == (true, true, true, true)
}

// Whether one iterator gives the first item, and another the second.
fn goes_through_two<R: Wait>(rt: &R, fifo: &Fifo) -> bool {
    let first = fifo.receiver.iter(rt).next();
    let second = fifo.receiver.try_iter(rt).next();
    (first, second) == (Some(1), Some(2))
}

// Whether a drain has the two items that are left, and then neither another one nor an iterator has any.
fn drains_two<R: Wait>(rt: &R, fifo: &Fifo) -> bool {
    let seen = (drained(rt, fifo), drained(rt, fifo));
    let next = fifo.receiver.try_iter(rt).next();
    (seen, next) == (((2, Some(3)), (0, None)), None)
}

// How many items a drain has, and the first of them.
fn drained<R: Wait>(rt: &R, fifo: &Fifo) -> (usize, Option<u64>) {
    let mut drain = fifo.receiver.drain(rt);
    let seen = (drain.len(), drain.next());
    drop(drain);
    seen
}

// Whether a fifo that has ended has no item.
fn has_no_more<R: Wait>(rt: &R, receiver: FifoChannelHandler<u64>) -> bool {
    receiver.into_iter(rt).next().is_none()
}
