//! A queue of a fixed size, and behind it the items that wait for room in it.
ghost use Rattle.std.specs.Prelude.{◌≡◌, ◌<◌, [], ◌++◌, true, false, IfSome, IfOk, OnOk, OnErr};
ghost use Rattle.zs_events.specs.declared.chan.Chan.TheVariants.{Fifo};
ghost use Rattle.zs_channels.specs.Channel.{with_item, without_first, at_end, received};
ghost use Rattle.zs_channels.specs.Waiting.{Waits, WaitsForOne, fifo_answer};

use std::alloc::{AllocError, Global};
use std::collections::VecDeque;
use std::marker::Model;
use zs_events::{Chan, Received};
use zs_handlers::{Disconnected, FifoQueue};

/// A fifo that takes any number of items. Those that don't fit wait behind it, in order, and come in as it is read.
pub(crate) struct WaitingFifo<T> {
    size: u32,
    queue: FifoQueue<T>,
    waiting: VecDeque<T>,
    has_ended: bool,
}

impl<T> Model for WaitingFifo<T> {
    ghost use Rattle.std.specs.Prelude.{◌≡◌, ◌++◌};
    ghost use Rattle.zs_events.specs.declared.chan.Chan.TheVariants.{Fifo};
    ghost use Rattle.zs_channels.specs.Channel.{Channel};
    ghost use Rattle.zs_channels.specs.Waiting.{Waits};

    ghost Value = { Channel T };

    ghost view = { λ f. record { to = Fifo f.size; items = f.queue.items ++ f.waiting.items; ended = f.has_ended } };

    ghost invariant = { λ f. (f.size ≡ f.queue.capacity) × Waits f.queue f.waiting.items f.has_ended };
}

impl<T> WaitingFifo<T> {
    /// No items, and room for this many. It takes its memory from `alloc`.
    pub(crate) fn new(alloc: Global, size: u32) -> Result<Self, AllocError>
        requires { 0 < size }
        ensures { IfOk result (λ made. made ≡ record { to = Fifo size; items = []; ended = false }) }
    {
        let Ok(queue) = FifoQueue::new(alloc, size as usize) else {
            return Err(AllocError);
        };
        Ok(WaitingFifo {
            size,
            queue,
            waiting: VecDeque::new(alloc),
            has_ended: false,
        })
    }

    /// Takes an item, behind all others.
    ///
    /// # Errors
    ///
    /// Want of memory alone.
    pub(crate) fn put(&mut self, item: T) -> Result<(), AllocError>
    where
        T: Drop,
        ensures ok { OnOk result (self.new ≡ with_item item self.old) }
        ensures err { OnErr result (self.new ≡ self.old) }
    {
        if self.has_ended {
            return Ok(());
        }
        match self.queue.try_push(item) {
            Ok(()) => Ok(()),
            Err(back) => {
                self.waiting.push_back(back)?;
                Ok(())
            }
        }
    }

    /// Gives the first item, and lets the first one that waits in.
    pub(crate) fn recv(&mut self) -> Received<T>
    where
        T: Drop,
        ensures answer { result ≡ received self.old }
        ensures items { self.new ≡ without_first self.old }
    {
        let taken = self.queue.try_recv();
        admit(&mut self.queue, &mut self.waiting, self.has_ended);
        answer_of(taken)
    }

    /// The channel that it is, where the callback has ended and nothing is left.
    pub(crate) fn over(&self) -> Option<Chan>
        ensures { IfSome result (λ to. self.now ≡ record { to = to; items = []; ended = true }) }
    {
        if self.has_ended && self.queue.is_empty() {
            return Some(Chan::Fifo(self.size));
        }
        None
    }

    /// Tells that the callback has ended: what is there and what waits can still be read.
    pub(crate) fn end(&mut self)
        ensures { self.new ≡ at_end self.old }
    {
        self.has_ended = true;
        if self.waiting.is_empty() {
            self.queue.end();
        }
    }
}

impl<T: Drop> Drop for WaitingFifo<T> {
    /// Lets go of the items in the queue and of those that wait for room in it.
    fn drop(self) {
        let WaitingFifo {
            size: _,
            queue: _,
            waiting: _,
            has_ended: _,
        } = self;
    }
}

/// Lets the first item that waits into the room that a read has left. The queue ends with the last one, if the callback has.
fn admit<T: Drop>(queue: &mut FifoQueue<T>, waiting: &mut VecDeque<T>, has_ended: bool)
    requires { WaitsForOne queue.old waiting.old.items has_ended }
    ensures capacity { queue.new.capacity ≡ queue.old.capacity }
    ensures items { queue.new.items ++ waiting.new.items ≡ queue.old.items ++ waiting.old.items }
    ensures waits { Waits queue.new waiting.new.items has_ended }
{
    let Some(next) = waiting.pop_front() else {
        return;
    };
    let _ = queue.try_push(next);
    if has_ended && waiting.is_empty() {
        queue.end();
    }
}

/// What a reader is told of what the queue gave: one that has ended and is empty is disconnected.
fn answer_of<T>(taken: Result<Option<T>, Disconnected>) -> Received<T>
    ensures { result ≡ fifo_answer taken }
{
    match taken {
        Ok(Some(item)) => Received::Item(item),
        Ok(None) => Received::Empty,
        Err(_) => Received::Disconnected,
    }
}
