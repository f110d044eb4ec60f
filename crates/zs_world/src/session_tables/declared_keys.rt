//! Changes of the keys that the session and the network declared.

ghost use Rattle.std.specs.Prelude.{◌≡◌, OnOk, OnErr};
ghost use Rattle.zs_world.specs.Changes.{KeysFit, with_change};

use super::SessionTables;
use crate::change::{Change, KeyChange, NetworkChange};
use std::alloc::AllocError;
use zs_keys::KeyExpr;
use zs_wire::Mapping;

impl SessionTables {
    /// Makes a change of the keys that the session declared. Only giving one back never wants memory.
    pub(super) fn change_keys(&mut self, change: KeyChange) -> Result<(), AllocError>
        requires { KeysFit self.old change }
        ensures ok { OnOk result (self.new ≡ with_change (Change.OfKeys change) self.old) }
        ensures err { OnErr result (self.new ≡ self.old) }
    {
        match change {
            KeyChange::Declare { number, key } => self.declare_key(number, key),
            KeyChange::Hold { number } => {
                self.holders.prepare(number)?;
                self.holders.raise(number);
                Ok(())
            }
            KeyChange::Release { number } => {
                self.release_key(number);
                Ok(())
            }
        }
    }

    /// A number that is drawn stands for a key, and is held.
    fn declare_key(&mut self, number: u16, key: KeyExpr<'static>) -> Result<(), AllocError>
        requires { KeysFit self.old (KeyChange.Declare number key) }
        ensures ok { OnOk result (self.new ≡ with_change (Change.OfKeys (KeyChange.Declare number key.entry)) self.old) }
        ensures err { OnErr result (self.new ≡ self.old) }
    {
        self.holders.prepare(number)?;
        self.tables.set(Mapping::Receiver, number, key)?;
        self.holders.raise(number);
        self.next_key += 1;
        Ok(())
    }

    /// A number is held by one less. It stands for nothing where that was the last.
    fn release_key(&mut self, number: u16)
        ensures { self.new ≡ with_change (Change.OfKeys (KeyChange.Release number)) self.old }
    {
        let is_last = self.holders.of(number) <= 1;
        self.holders.lower(number);
        if is_last {
            self.tables.unset(Mapping::Receiver, number);
        }
    }

    /// Makes a change of what the network told: its number stands for the key from now on.
    pub(super) fn change_network(&mut self, change: NetworkChange) -> Result<(), AllocError>
        ensures ok { OnOk result (self.new ≡ with_change (Change.OfNetwork change) self.old) }
        ensures err { OnErr result (self.new ≡ self.old) }
    {
        match change {
            NetworkChange::TellKey { number, key } => {
                self.tables.set(Mapping::Sender, number, key)
            }
        }
    }
}
