//! One channel, over the queue that it was declared with.
ghost use Rattle.std.specs.Prelude.{◌≡◌, [], true, IfSome, IfOk, OnOk, OnErr};
ghost use Rattle.zs_channels.specs.Lent.{channel_lent};
ghost use Rattle.zs_channels.specs.Channel.{opened, with_item, without_first, at_end, received};

use crate::latest_ring::LatestRing;
use crate::waiting_fifo::WaitingFifo;
use std::alloc::{AllocError, Global};
use std::marker::Model;
use zs_events::{Chan, Received};

/// A channel, whichever queue it has.
#[derive(Drop)]
pub(crate) struct OpenChannel<T> {
    lent: Lent<T>,
}

#[derive(Drop)]
enum Lent<T> {
    Fifo(WaitingFifo<T>),
    Ring(LatestRing<T>),
    /// Its callback has ended, and nothing is left: it needs no queue.
    Over(Chan),
}

impl<T> Model for OpenChannel<T> {
    ghost use Rattle.zs_channels.specs.Channel.{Channel};
    ghost use Rattle.zs_channels.specs.Lent.{channel_lent};

    ghost Value = { Channel T };

    ghost view = { λ c. channel_lent c.lent };
}

impl<T> OpenChannel<T> {
    /// The channel that is declared, if that is one. It takes its memory from `alloc`.
    ///
    /// # Errors
    ///
    /// Want of memory alone.
    pub(crate) fn open(alloc: Global, to: Chan) -> Result<Option<Self>, AllocError>
        ensures { IfOk result (λ made. made ≡ opened to) }
    {
        match to {
            Chan::Print => Ok(None),
            Chan::Fifo(size) => OpenChannel::fifo(alloc, size),
            Chan::Ring(size) => OpenChannel::ring(alloc, size),
        }
    }

    /// A channel with a fifo of that size. Size 0 declares none.
    fn fifo(alloc: Global, size: u32) -> Result<Option<Self>, AllocError>
        ensures { IfOk result (λ made. made ≡ opened (Chan.Fifo size)) }
    {
        if size == 0 {
            return Ok(None);
        }
        let fifo = WaitingFifo::new(alloc, size)?;
        Ok(Some(OpenChannel {
            lent: Lent::Fifo(fifo),
        }))
    }

    /// A channel with a ring of that size. Size 0 declares none.
    fn ring(alloc: Global, size: u32) -> Result<Option<Self>, AllocError>
        ensures { IfOk result (λ made. made ≡ opened (Chan.Ring size)) }
    {
        if size == 0 {
            return Ok(None);
        }
        let ring = LatestRing::new(alloc, size)?;
        Ok(Some(OpenChannel {
            lent: Lent::Ring(ring),
        }))
    }

    /// Takes an item that is handed over.
    ///
    /// # Errors
    ///
    /// Want of memory alone.
    pub(crate) fn put(&mut self, item: T) -> Result<(), AllocError>
    where
        T: Drop,
        ensures ok { OnOk result (self.new ≡ with_item item self.old) }
        ensures err { OnErr result (self.new ≡ self.old) }
    {
        match &mut self.lent {
            Lent::Fifo(fifo) => fifo.put(item),
            Lent::Ring(ring) => {
                ring.put(item);
                Ok(())
            }
            Lent::Over(_) => Ok(()),
        }
    }

    /// Gives the first item, or says why there is none.
    pub(crate) fn recv(&mut self) -> Received<T>
    where
        T: Drop,
        ensures answer { result ≡ received self.old }
        ensures items { self.new ≡ without_first self.old }
    {
        let answer = self.lent.recv();
        self.lent.settle();
        answer
    }

    /// Tells that the callback has ended.
    pub(crate) fn end(&mut self)
    where
        T: Drop,
        ensures { self.new ≡ at_end self.old }
    {
        self.lent.end();
        self.lent.settle();
    }
}

impl<T: Drop> Lent<T> {
    /// Gives the queue's first item. Where all is over, a ring is deleted and a fifo disconnected.
    fn recv(&mut self) -> Received<T>
        ensures answer { result ≡ received (channel_lent self.old) }
        ensures items { channel_lent self.new ≡ without_first (channel_lent self.old) }
    {
        match self {
            Lent::Fifo(fifo) => fifo.recv(),
            Lent::Ring(ring) => ring.recv(),
            Lent::Over(Chan::Ring(_)) => Received::Deleted,
            Lent::Over(_) => Received::Disconnected,
        }
    }

    /// Tells the queue that the callback has ended. Where all is over that changes nothing.
    fn end(&mut self)
        ensures { channel_lent self.new ≡ at_end (channel_lent self.old) }
    {
        match self {
            Lent::Fifo(fifo) => fifo.end(),
            Lent::Ring(ring) => ring.end(),
            Lent::Over(_) => {}
        }
    }

    /// Lets go of a queue from which nothing comes any more.
    fn settle(&mut self)
        ensures { channel_lent self.new ≡ channel_lent self.old }
    {
        if let Some(to) = self.over() {
            *self = Lent::Over(to);
        }
    }

    /// The channel that it was declared as, where nothing comes from it any more.
    fn over(&self) -> Option<Chan>
        ensures { IfSome result (λ to. channel_lent self.now ≡ record { to = to; items = []; ended = true }) }
    {
        match self {
            Lent::Fifo(fifo) => fifo.over(),
            Lent::Ring(ring) => ring.over(),
            Lent::Over(_) => None,
        }
    }
}
