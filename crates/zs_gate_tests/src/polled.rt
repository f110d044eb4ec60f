//! Fifos as futures and streams.

use crate::entering::{Fifo, fifo};
use futures::StreamExt;
use futures::executor::block_on;
use futures::task::Poll;
use futures::test::MockTask;
use std::alloc::AllocGlobal;
use std::process::Abort;
use std::random::RandomSource;
use std::sync::Wait;
use zs_handlers::{Disconnected, FifoChannelHandler, RecvStream};

type Items<'a, R> = RecvStream<'a, u64, R>;

// What one poll of a stream's next item gives.
fn poll_next<R: Wait + Drop>(task: &MockTask, stream: &mut Items<'_, R>) -> Poll<Option<u64>> {
    task.poll(&mut stream.next())
}

// Whether an item wakes the task that waits for it, and is given to it.
fn wakes_for_an_item<R: Wait, S: Wait + Drop>(
    rt: &R,
    fifo: &Fifo,
    task: &MockTask,
    stream: &mut Items<'_, S>,
) -> bool {
    let seen = (
        poll_next(task, stream),
        task.is_woken(),
        fifo.takes(rt, 1),
        task.is_woken(),
        poll_next(task, stream),
    );
    seen == (Poll::Pending, false, true, true, Poll::Ready(Some(1)))
}

// Whether the end wakes the task that waits, and is given to it.
fn wakes_at_the_end<R: Wait, S: Wait + Drop>(
    rt: &R,
    fifo: &Fifo,
    task: &MockTask,
    stream: &mut Items<'_, S>,
) -> bool {
    let before = poll_next(task, stream);
    fifo.ends(rt);
    let seen = (before, task.is_woken(), poll_next(task, stream));
    seen == (Poll::Pending, true, Poll::Ready(None))
}

/// A stream wakes the task that polls it for an item and at the end, and is terminated then.
#[test]
fn streams_by_hand(rt: HostRuntime) {
    let task = MockTask::new(&rt).expect(&rt, "a task");
    let fifo = fifo(&rt);
    let mut stream = fifo.receiver.stream(&rt);
    let seen = (
        wakes_for_an_item(&rt, &fifo, &task, &mut stream),
        wakes_at_the_end(&rt, &fifo, &task, &mut stream),
        stream.is_terminated(),
    );
    assert!(rt; seen == (true, true, true));
}

// What a stream gives next.
fn next<R: Wait + AllocGlobal + RandomSource + Abort, S: Wait + Drop>(
    rt: &R,
    stream: &mut Items<'_, S>,
) -> Option<u64> {
    block_on(rt, stream.next()).expect(rt, "an executor")
}

// Whether a stream is full, how many items it has and can have, whether it has none, and whether it has ended.
fn readings<R: Wait + Drop>(stream: &Items<'_, R>) -> (bool, usize, usize, bool, bool) {
    (
        stream.is_full(),
        stream.len(),
        stream.capacity(),
        stream.is_empty(),
        stream.is_disconnected(),
    )
}

// Whether a stream that has ended is full of two items, gives them, and is empty then.
fn gives_two<R: Wait + AllocGlobal + RandomSource + Abort, S: Wait + Drop>(
    rt: &R,
    stream: &mut Items<'_, S>,
) -> bool {
    let before = readings(stream);
    let given = (next(rt, stream), next(rt, stream), next(rt, stream));
    let seen = (before, given, readings(stream));
    seen == (
        (true, 2, 2, false, true),
        (Some(1), Some(2), None),
        (false, 0, 2, true, true),
    )
}

/// A stream of a fifo that has ended gives what is left, and then the end; its readings follow.
#[test]
fn streams_an_ended_fifo(rt: HostRuntime) {
    let fifo = fifo(&rt);
    let takes = (fifo.takes(&rt, 1), fifo.takes(&rt, 2));
    fifo.ends(&rt);
    let mut stream = fifo.into_receiver().into_stream(&rt);
    assert!(rt; (takes, gives_two(&rt, &mut stream)) == ((true, true), true));
}

// What a future of a receiver becomes, and whether it was over before.
fn becomes<R: Wait + AllocGlobal + RandomSource + Abort>(
    rt: &R,
    receiver: &FifoChannelHandler<u64>,
) -> (bool, Result<u64, Disconnected>) {
    let future = receiver.recv_async(rt);
    let was_over = future.is_terminated();
    (was_over, block_on(rt, future).expect(rt, "an executor"))
}

/// The future of a receiver becomes an item, or `Disconnected` where none is left after the end.
#[test]
fn becomes_an_item_or_the_end(rt: HostRuntime) {
    let fifo = fifo(&rt);
    let takes = fifo.takes(&rt, 1);
    let item = becomes(&rt, &fifo.receiver);
    fifo.ends(&rt);
    let end = block_on(&rt, fifo.into_receiver().into_recv_async(&rt));
    let end = end.expect(&rt, "an executor");
    assert!(rt; (takes, item, end) == (true, (false, Ok(1)), Err(Disconnected)));
}
