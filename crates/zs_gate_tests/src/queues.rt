//! The queues that are lent.

use zs_handlers::{FifoQueue, RingQueue};

/// A fifo gives its items in the order in which it took them.
#[test]
fn gives_items_of_a_fifo_in_order(rt: HostRuntime) {
    let mut fifo = FifoQueue::new(rt.alloc(), 2).expect(&rt, "a fifo");
    let seen = (
        fifo.try_push(1u64),
        fifo.try_push(2),
        fifo.try_recv(),
        fifo.try_recv(),
    );
    assert!(rt; seen == (Ok(()), Ok(()), Ok(Some(1)), Ok(Some(2))));
}

/// A full ring gives its oldest item back for a new one, and then gives the next one.
#[test]
fn keeps_the_newest_items_of_a_ring(rt: HostRuntime) {
    let mut ring = RingQueue::new(rt.alloc(), 2).expect(&rt, "a ring");
    let seen = (ring.push(1u64), ring.push(2), ring.push(3), ring.try_recv());
    assert!(rt; seen == (None, None, Some(1), Ok(Some(2))));
}
