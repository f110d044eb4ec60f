//! The items that were in a fifo at one moment.
ghost use Rattle.std.specs.Prelude.{◌≡◌, [], length, IfSome};
ghost use Rattle.std.specs.Iterator.{at_most, UpTo};
ghost use Rattle.std.specs.Iterator.SizeHint.{IsWithinCount};
ghost use Rattle.std.specs.Map.Iter.{TakesFirst};

use crate::fifo::{FifoChannelHandler, FifoShared};
use circular_buffer::HeapCircularBuffer;
use std::alloc::Global;
use std::marker::Model;
use std::sync::Wait;

/// Gives the items that were in a fifo as it was made, in order. Contracts see those that are left.
///
/// While it is there, whoever else drains the fifo waits. Nothing else does.
pub struct Drain<'a, T: Drop> {
    buffer: HeapCircularBuffer<T, Global>,
    shared: &'a FifoShared<T>,
}

impl<'a, T: Drop> Model for Drain<'a, T> {
    ghost use Rattle.std.specs.Prelude.{List};

    ghost Value = { List T };

    ghost view = { λ d. d.buffer.items };
}

impl<T: Drop> FifoChannelHandler<T> {
    /// Takes all items at once, and wakes the senders that wait for room.
    pub fn drain<R: Wait>(&self, rt: &R) -> Drain<'_, T> {
        let shared = &*self.shared;
        Drain {
            buffer: shared.take_all(rt),
            shared,
        }
    }
}

impl<T: Drop> Iterator for Drain<'_, T> {
    type Item = T;

    ghost next_gives = { TakesFirst (λ x. x) };

    ghost remaining = { λ s. at_most (length s) };

    /// The first of the items that are left. It never waits.
    fn next(&mut self) -> Option<T> {
        self.buffer.pop_front()
    }

    /// How many items are left, exactly: none comes in any more.
    fn size_hint(&self) -> (usize, Option<usize>)
        ensures lower { IsWithinCount result.0 (at_most (length self.now)) }
        ensures upper { IfSome result.1 (UpTo (at_most (length self.now))) }
        ensures exact { (result.0 ≡ length self.now) × (result.1 ≡ Some (length self.now)) }
    {
        let len = self.len();
        (len, Some(len))
    }
}

impl<T: Drop> ExactSizeIterator for Drain<'_, T> {
    /// How many items are left.
    fn len(&self) -> usize {
        self.buffer.len()
    }
}

impl<T: Drop> Drop for Drain<'_, T> {
    /// Drops the items that are left, and gives their buffer back for the next drain.
    fn drop(self) {
        let Drain { mut buffer, shared } = self;
        buffer.clear();
        shared.give_back(buffer);
    }
}
