//! Iterators over the items of a fifo as they come.
ghost use Rattle.std.specs.Iterator.{at_most};
ghost use Rattle.std.specs.Sync.Forever.{forever_left};

use crate::fifo::FifoChannelHandler;
use std::sync::{Forever, Wait};

/// Gives each item as it comes, waits for the next one, and ends with the callback.
#[derive(Drop)]
pub struct Iter<'a, T: Drop, R: Wait> {
    handler: &'a FifoChannelHandler<T>,
    rt: &'a R,
    turns: Forever<'a, R>,
}

/// Gives the items that are there, and ends where there is none yet.
#[derive(Drop)]
pub struct TryIter<'a, T: Drop, R: Wait> {
    handler: &'a FifoChannelHandler<T>,
    rt: &'a R,
    turns: Forever<'a, R>,
}

/// As `Iter`, with the receiver of its own.
#[derive(Drop)]
pub struct IntoIter<'a, T: Drop, R: Wait> {
    handler: FifoChannelHandler<T>,
    rt: &'a R,
    turns: Forever<'a, R>,
}

impl<T: Drop> FifoChannelHandler<T> {
    /// An iterator over the items as they come. It waits for each, and ends with the callback.
    pub fn iter<'a, R: Wait>(&'a self, rt: &'a R) -> Iter<'a, T, R> {
        Iter {
            handler: self,
            rt,
            turns: rt.forever(),
        }
    }

    /// An iterator over the items that are there. It waits for none.
    pub fn try_iter<'a, R: Wait>(&'a self, rt: &'a R) -> TryIter<'a, T, R> {
        TryIter {
            handler: self,
            rt,
            turns: rt.forever(),
        }
    }

    /// As `iter`, of a receiver that is given up.
    pub fn into_iter<R: Wait>(self, rt: &R) -> IntoIter<'_, T, R> {
        IntoIter {
            handler: self,
            rt,
            turns: rt.forever(),
        }
    }
}

impl<T: Drop, R: Wait> Iterator for Iter<'_, T, R> {
    type Item = T;

    ghost remaining = { λ s. at_most (forever_left s.turns) };

    /// Waits for the next item. `None` once the callback has ended and no item is left.
    fn next(&mut self) -> Option<T> {
        self.turns.next();
        self.handler.recv(self.rt).ok()
    }
}

impl<T: Drop, R: Wait> Iterator for TryIter<'_, T, R> {
    type Item = T;

    ghost remaining = { λ s. at_most (forever_left s.turns) };

    /// The next item, without waiting. `None` where there is none now: one may come later.
    fn next(&mut self) -> Option<T> {
        self.turns.next();
        self.handler.try_recv(self.rt).ok().flatten()
    }
}

impl<T: Drop, R: Wait> Iterator for IntoIter<'_, T, R> {
    type Item = T;

    ghost remaining = { λ s. at_most (forever_left s.turns) };

    /// Waits for the next item. `None` once the callback has ended and no item is left.
    fn next(&mut self) -> Option<T> {
        self.turns.next();
        self.handler.recv(self.rt).ok()
    }
}
