//! Channels that share a kind, each under its number.
ghost use Rattle.std.specs.Prelude.{◌≡◌, [], OnOk, OnErr, option_map};
ghost use Rattle.std.specs.Option.{is_some};
ghost use Rattle.zs_channels.specs.Channel.{opened, with_item, without_first, at_end, received};
ghost use Rattle.zs_channels.specs.Table.{channel_in, with_channel, with_changed};

use crate::open_channel::OpenChannel;
use indexmap::IndexMap;
use std::alloc::{AllocError, Global};
use std::marker::Model;
use zs_events::{Chan, Received};

/// The channels of one kind, by number.
#[derive(Drop)]
pub(crate) struct NumberedChannels<T> {
    by_number: IndexMap<u32, OpenChannel<T>>,
}

impl<T> Model for NumberedChannels<T> {
    ghost use Rattle.zs_channels.specs.Table.{Rows};

    ghost Value = { Rows T };

    ghost view = { λ n. n.by_number.entries };
}

impl<T> NumberedChannels<T> {
    /// No channel.
    pub(crate) fn new(alloc: Global) -> Self
        ensures { result ≡ [] }
    {
        NumberedChannels {
            by_number: IndexMap::new(alloc),
        }
    }

    /// Whether a number has a channel.
    pub(crate) fn has(&self, id: u32) -> bool
        ensures { result ≡ is_some (channel_in id self.now) }
    {
        self.by_number.contains_key(&id)
    }

    /// Opens a channel under a number, if that is one.
    ///
    /// # Errors
    ///
    /// Want of memory alone.
    pub(crate) fn open(&mut self, alloc: Global, id: u32, to: Chan) -> Result<(), AllocError>
    where
        T: Drop,
        ensures ok { OnOk result (self.new ≡ with_channel id (opened to) self.old) }
        ensures err { OnErr result (self.new ≡ self.old) }
    {
        let Some(channel) = OpenChannel::open(alloc, to)? else {
            return Ok(());
        };
        let _ = self.by_number.insert(id, channel)?;
        Ok(())
    }

    /// Puts an item into the channel of a number, if it has one.
    ///
    /// # Errors
    ///
    /// Want of memory alone.
    pub(crate) fn put(&mut self, id: u32, item: T) -> Result<(), AllocError>
    where
        T: Drop,
        ensures ok { OnOk result (self.new ≡ with_changed id (with_item item) self.old) }
        ensures err { OnErr result (self.new ≡ self.old) }
    {
        let Some(channel) = self.by_number.get_mut(&id) else {
            return Ok(());
        };
        channel.put(item)
    }

    /// Reads the channel of a number, if it has one.
    pub(crate) fn recv(&mut self, id: u32) -> Option<Received<T>>
    where
        T: Drop,
        ensures answer { result ≡ option_map received (channel_in id self.old) }
        ensures rows { self.new ≡ with_changed id without_first self.old }
    {
        let Some(channel) = self.by_number.get_mut(&id) else {
            return None;
        };
        Some(channel.recv())
    }

    /// Tells the channel of a number that its callback has ended, if it has one.
    pub(crate) fn end(&mut self, id: u32)
    where
        T: Drop,
        ensures { self.new ≡ with_changed id at_end self.old }
    {
        let Some(channel) = self.by_number.get_mut(&id) else {
            return;
        };
        channel.end();
    }
}
