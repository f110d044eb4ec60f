//! A fifo as a future and as a stream.
ghost use Rattle.std.specs.Prelude.{◌≡◌};
ghost use Rattle.zs_handlers.specs.Ends.{source_of, capacity_of, future_source, stream_source, stream_capacity};

use crate::error::Disconnected;
use crate::fifo::FifoChannelHandler;
use crate::place::Place;
use futures::task::{Context, Poll};
use futures::{Future, Stream};
use std::sync::Wait;

/// Becomes the first item of a fifo, or its end. It is pending only where the fifo was empty and had not ended.
#[derive(Drop)]
pub struct RecvFut<'a, T: Drop, R: Drop> {
    place: Place<'a, T>,
    rt: R,
}

/// Gives the items of a fifo as they come, and then its end. It is pending only where the fifo was empty and had not ended.
#[derive(Drop)]
pub struct RecvStream<'a, T: Drop, R: Drop> {
    place: Place<'a, T>,
    rt: R,
}

impl<T: Drop> FifoChannelHandler<T> {
    /// A future of the first item. It keeps the runtime's value, since a poll is passed none.
    pub fn recv_async<R: Wait + Drop>(&self, rt: R) -> RecvFut<'_, T, R>
        ensures { future_source result ≡ source_of self.now }
    {
        RecvFut {
            place: Place::Lent(self),
            rt,
        }
    }

    /// As `recv_async`, of a receiver that is given up.
    pub fn into_recv_async<R: Wait + Drop>(self, rt: R) -> RecvFut<'static, T, R>
        ensures { future_source result ≡ source_of self }
    {
        RecvFut {
            place: Place::Own(self),
            rt,
        }
    }

    /// A stream of the items as they come. It keeps the runtime's value, since a poll is passed none.
    pub fn stream<R: Wait + Drop>(&self, rt: R) -> RecvStream<'_, T, R>
        ensures source { stream_source result ≡ source_of self.now }
        ensures capacity { stream_capacity result ≡ capacity_of self.now }
    {
        RecvStream {
            place: Place::Lent(self),
            rt,
        }
    }

    /// As `stream`, of a receiver that is given up.
    pub fn into_stream<R: Wait + Drop>(self, rt: R) -> RecvStream<'static, T, R>
        ensures source { stream_source result ≡ source_of self }
        ensures capacity { stream_capacity result ≡ capacity_of self }
    {
        RecvStream {
            place: Place::Own(self),
            rt,
        }
    }
}

impl<T: Drop, R: Wait + Drop> Future for RecvFut<'_, T, R> {
    type Output = Result<T, Disconnected>;

    ghost needs = { λ receive source. source ≡ future_source receive };

    /// Takes the first item, or tells the end. While there is neither, the waker of the task is left.
    fn poll(&mut self, cx: &mut Context<'_>) -> Poll<Result<T, Disconnected>> {
        self.place.handler().shared.poll(&self.rt, cx)
    }
}

impl<T: Drop, R: Wait + Drop> Stream for RecvStream<'_, T, R> {
    type Item = T;

    ghost needs = { λ stream source. source ≡ stream_source stream };

    /// Takes the first item; `None` at the end. While there is neither, the waker of the task is left.
    fn poll_next(&mut self, cx: &mut Context<'_>) -> Poll<Option<T>> {
        match self.place.handler().shared.poll(&self.rt, cx) {
            Poll::Ready(Ok(item)) => Poll::Ready(Some(item)),
            Poll::Ready(Err(Disconnected)) => Poll::Ready(None),
            Poll::Pending => Poll::Pending,
        }
    }
}

impl<T: Drop, R: Wait + Drop> RecvFut<'_, T, R> {
    /// Whether the callback has ended and no item is left, so that no poll gives an item any more.
    pub fn is_terminated(&self) -> bool {
        self.place.handler().is_over(&self.rt)
    }
}

impl<T: Drop, R: Wait + Drop> RecvStream<'_, T, R> {
    /// Whether the callback has ended and no item is left, so that no poll gives an item any more.
    pub fn is_terminated(&self) -> bool {
        self.place.handler().is_over(&self.rt)
    }

    /// The number of items that can be received.
    pub fn len(&self) -> usize {
        self.place.handler().len(&self.rt)
    }

    /// The most items that the fifo can hold: what its channel was made with.
    pub fn capacity(&self) -> usize
        ensures { result ≡ stream_capacity self.now }
    {
        self.place.handler().capacity(&self.rt)
    }

    /// Whether no item can be received now.
    pub fn is_empty(&self) -> bool {
        self.place.handler().is_empty(&self.rt)
    }

    /// Whether a sender would wait for room.
    pub fn is_full(&self) -> bool {
        self.place.handler().is_full(&self.rt)
    }

    /// Whether the callback has ended. Items may be left.
    pub fn is_disconnected(&self) -> bool {
        self.place.handler().is_disconnected(&self.rt)
    }
}
