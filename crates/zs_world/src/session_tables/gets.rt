//! Gets, and what comes in for them.

ghost use Rattle.std.specs.Prelude.{◌≡◌, OnOk, OnErr};
ghost use Rattle.zs_world.specs.Changes.{GetsFit, with_change};

use super::SessionTables;
use crate::change::{Change, GetChange};
use std::alloc::AllocError;

impl SessionTables {
    /// Makes a change of the gets. A new moment also ends the gets of tokens whose deadline it reaches.
    pub(super) fn change_gets(&mut self, change: GetChange) -> Result<(), AllocError>
        requires { GetsFit self.old change }
        ensures ok { OnOk result (self.new ≡ with_change (Change.OfGets change) self.old) }
        ensures err { OnErr result (self.new ≡ self.old) }
    {
        match change {
            GetChange::Ask { row } => self.asking.ask(row),
            GetChange::Take { number, reply } => self.asking.take(number, reply),
            GetChange::Final { number } => {
                self.asking.note_final(number);
                Ok(())
            }
            GetChange::Advance { moment } => {
                self.asking.advance(moment);
                self.liveliness.advance(moment);
                Ok(())
            }
        }
    }
}
