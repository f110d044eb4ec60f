//! A ring of which nothing is left behind its end.
ghost use Rattle.std.specs.Prelude.{◌≡◌, ◌<◌, [], true, false, IfSome, IfOk};
ghost use Rattle.zs_events.specs.declared.chan.Chan.TheVariants.{Ring};
ghost use Rattle.zs_channels.specs.Channel.{with_item, without_first, at_end, received};
ghost use Rattle.zs_channels.specs.Waiting.{ring_answer};

use std::alloc::{AllocError, Global};
use std::marker::Model;
use zs_events::{Chan, Received};
use zs_handlers::{RingDeleted, RingQueue};

/// A ring, which keeps the newest items. Where its callback ends it lets go of those that weren't read.
pub(crate) struct LatestRing<T> {
    size: u32,
    ring: RingQueue<T>,
}

impl<T> Model for LatestRing<T> {
    ghost use Rattle.std.specs.Prelude.{◌≡◌};
    ghost use Rattle.zs_events.specs.declared.chan.Chan.TheVariants.{Ring};
    ghost use Rattle.zs_channels.specs.Channel.{Channel};
    ghost use Rattle.zs_channels.specs.Waiting.{IsRing};

    ghost Value = { Channel T };

    ghost view = { λ r. record { to = Ring r.size; items = r.ring.items; ended = r.ring.ended } };

    ghost invariant = { λ r. (r.size ≡ r.ring.capacity) × IsRing r.ring };
}

impl<T> LatestRing<T> {
    /// No items, and room for this many. It takes its memory from `alloc`.
    pub(crate) fn new(alloc: Global, size: u32) -> Result<Self, AllocError>
        requires { 0 < size }
        ensures { IfOk result (λ made. made ≡ record { to = Ring size; items = []; ended = false }) }
    {
        let Ok(ring) = RingQueue::new(alloc, size as usize) else {
            return Err(AllocError);
        };
        Ok(LatestRing { size, ring })
    }

    /// Takes an item, and lets go of the oldest one where the ring is full.
    pub(crate) fn put(&mut self, item: T)
    where
        T: Drop,
        ensures { self.new ≡ with_item item self.old }
    {
        if self.ring.is_disconnected() {
            return;
        }
        let _ = self.ring.push(item);
    }

    /// Gives the oldest item.
    pub(crate) fn recv(&mut self) -> Received<T>
        ensures answer { result ≡ received self.old }
        ensures items { self.new ≡ without_first self.old }
    {
        let taken = self.ring.try_recv();
        answer_of(taken)
    }

    /// The channel that it is, where the callback has ended.
    pub(crate) fn over(&self) -> Option<Chan>
        ensures { IfSome result (λ to. self.now ≡ record { to = to; items = []; ended = true }) }
    {
        if self.ring.is_disconnected() {
            return Some(Chan::Ring(self.size));
        }
        None
    }

    /// Tells that the callback has ended.
    pub(crate) fn end(&mut self)
    where
        T: Drop,
        ensures { self.new ≡ at_end self.old }
    {
        self.ring.end();
        clear(&mut self.ring);
    }
}

impl<T: Drop> Drop for LatestRing<T> {
    /// Lets go of the ring, with the items that weren't read.
    fn drop(self) {
        let LatestRing { size: _, ring: _ } = self;
    }
}

/// Lets go of what is left in a ring that has ended.
fn clear<T: Drop>(ring: &mut RingQueue<T>)
    requires { ring.old.ended ≡ true }
    ensures { ring.new ≡ record ring.old { items = [] } }
{
    while let Some(item) = ring.take_left() {
        drop(item);
    }
}

/// What a reader is told of what the ring gave: a ring that has ended is deleted.
fn answer_of<T>(taken: Result<Option<T>, RingDeleted>) -> Received<T>
    ensures { result ≡ ring_answer taken }
{
    match taken {
        Ok(Some(item)) => Received::Item(item),
        Ok(None) => Received::Empty,
        Err(_) => Received::Deleted,
    }
}
