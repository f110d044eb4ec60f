//! All channels of a run.
ghost use Rattle.std.specs.Prelude.{◌≡◌, false, OnOk, OnErr, option_map};
ghost use Rattle.std.specs.Option.{is_some};
ghost use Rattle.zs_channels.specs.Channel.{Channel, with_item, without_first, at_end, received};
ghost use Rattle.zs_channels.specs.Table.{no_channels, channel_at, with_opened, with_change};

use crate::numbered::NumberedChannels;
use crate::shelf::{Shelf, shelf_of};
use std::alloc::{AllocError, Global};
use std::marker::Model;
use zs_events::{Chan, Kind, Received};

/// The channels of a run, by the kind and number of whom they are: of subscribers, gets and liveliness gets. A channel
/// stays behind the end of whom it is, so that what was handed over can still be read. It is found by its number's hash. No
/// call that answers want of memory has changed anything.
#[derive(Drop)]
pub struct Channels<T> {
    alloc: Global,
    subscribers: NumberedChannels<T>,
    gets: NumberedChannels<T>,
    liveliness_gets: NumberedChannels<T>,
}

impl<T> Model for Channels<T> {
    ghost use Rattle.zs_channels.specs.Table.{Table};

    ghost Value = { Table T };

    ghost view = { λ c. record { subscribers = c.subscribers; gets = c.gets; liveliness_gets = c.liveliness_gets } };
}

impl<T> Channels<T> {
    /// No channel. It takes its memory from `alloc`.
    pub fn new(alloc: Global) -> Self
        ensures { result ≡ no_channels }
    {
        Channels {
            alloc,
            subscribers: NumberedChannels::new(alloc),
            gets: NumberedChannels::new(alloc),
            liveliness_gets: NumberedChannels::new(alloc),
        }
    }

    /// Whether a channel was opened for that kind and number. Where none was, nothing that happens to one changes the table: so
    /// nothing needs to be copied for it.
    pub fn has(&self, kind: Kind, id: u32) -> bool
        ensures there { result ≡ is_some (channel_at kind id self.now) }
        ensures none { result ≡ false → (change : Channel T → Channel T) → with_change kind id change self.now ≡ self.now }
    {
        self.finds(kind, id)
    }

    /// Whether the kind has a channel of that number. A kind that can't have channels has none.
    fn finds(&self, kind: Kind, id: u32) -> bool
        ensures { result ≡ is_some (channel_at kind id self.now) }
    {
        let Some(shelf) = shelf_of(kind) else {
            return false;
        };
        match shelf {
            Shelf::Subscribers => self.subscribers.has(id),
            Shelf::Gets => self.gets.has(id),
            Shelf::LivelinessGets => self.liveliness_gets.has(id),
        }
    }

    /// Opens the channel that was declared for whom it is, if that is one. Where there is one already it begins anew.
    ///
    /// # Errors
    ///
    /// Want of memory alone.
    pub fn open(&mut self, kind: Kind, id: u32, to: Chan) -> Result<(), AllocError>
    where
        T: Drop,
        ensures ok { OnOk result (self.new ≡ with_opened kind id to self.old) }
        ensures err { OnErr result (self.new ≡ self.old) }
    {
        let Some(shelf) = shelf_of(kind) else {
            return Ok(());
        };
        match shelf {
            Shelf::Subscribers => self.subscribers.open(self.alloc, id, to),
            Shelf::Gets => self.gets.open(self.alloc, id, to),
            Shelf::LivelinessGets => self.liveliness_gets.open(self.alloc, id, to),
        }
    }

    /// Puts what is handed to someone into the channel of that kind and number, if there is one. Behind the end of its
    /// callback a channel takes nothing.
    ///
    /// # Errors
    ///
    /// Want of memory alone.
    pub fn hand(&mut self, kind: Kind, id: u32, item: T) -> Result<(), AllocError>
    where
        T: Drop,
        ensures ok { OnOk result (self.new ≡ with_change kind id (with_item item) self.old) }
        ensures err { OnErr result (self.new ≡ self.old) }
    {
        let Some(shelf) = shelf_of(kind) else {
            return Ok(());
        };
        match shelf {
            Shelf::Subscribers => self.subscribers.put(id, item),
            Shelf::Gets => self.gets.put(id, item),
            Shelf::LivelinessGets => self.liveliness_gets.put(id, item),
        }
    }

    /// Reads the channel of that kind and number: it takes the first item, or says why there is none. `None` where no
    /// channel was opened for them.
    pub fn recv(&mut self, kind: Kind, id: u32) -> Option<Received<T>>
    where
        T: Drop,
        ensures answer { result ≡ option_map received (channel_at kind id self.old) }
        ensures table { self.new ≡ with_change kind id without_first self.old }
    {
        let Some(shelf) = shelf_of(kind) else {
            return None;
        };
        match shelf {
            Shelf::Subscribers => self.subscribers.recv(id),
            Shelf::Gets => self.gets.recv(id),
            Shelf::LivelinessGets => self.liveliness_gets.recv(id),
        }
    }

    /// Tells the channel of that kind and number, if there is one, that its callback has ended.
    pub fn end(&mut self, kind: Kind, id: u32)
    where
        T: Drop,
        ensures { self.new ≡ with_change kind id at_end self.old }
    {
        let Some(shelf) = shelf_of(kind) else {
            return;
        };
        match shelf {
            Shelf::Subscribers => self.subscribers.end(id),
            Shelf::Gets => self.gets.end(id),
            Shelf::LivelinessGets => self.liveliness_gets.end(id),
        }
    }
}
