//! Query values: what requests draw, and what gives them back.

ghost use Rattle.std.specs.Prelude.{◌≡◌, false, OnOk, OnErr};
ghost use Rattle.zs_query.specs.RequestTable.{with_handed};
ghost use Rattle.zs_tables.specs.Queryables.{met};
ghost use Rattle.zs_world.specs.Changes.{ValuesFit, with_change, with_ended};
ghost use Rattle.zs_model.specs.Values.{lacks_values};
ghost use Rattle.zs_query.specs.Types.{Finished};

use super::SessionTables;
use crate::change::{Change, ValueChange};
use std::alloc::AllocError;
use zs_entity_tables::Met;
use zs_query::{Finished, GetTable, RequestRow, RequestTable};

impl SessionTables {
    /// Makes a change of the query values. Only giving one back never wants memory.
    pub(super) fn change_values(&mut self, change: ValueChange) -> Result<(), AllocError>
        requires { ValuesFit self.old change }
        ensures ok { OnOk result (self.new ≡ with_change (Change.OfValues change) self.old) }
        ensures err { OnErr result (self.new ≡ self.old) }
    {
        match change {
            ValueChange::HandOut { row, met } => hand_out(&mut self.handing, row, &met),
            ValueChange::AskHere { get, row, met } => {
                self.asking
                    .ask_of(get, &mut self.handing, row, met.as_slice())
            }
            ValueChange::ShareOf { value } => self.handing.share(value),
            ValueChange::GiveBack { value } => {
                self.give_back(value);
                Ok(())
            }
        }
    }

    /// A value is given back. The last one of a get's request gives the get this session's final.
    fn give_back(&mut self, value: u32)
        ensures { self.new ≡ with_change (Change.OfValues (ValueChange.GiveBack value)) self.old }
    {
        let finished = self.handing.finish(value);
        note_end(&mut self.asking, finished);
    }
}

/// A request is handed to queryables, if there are any.
fn hand_out(handing: &mut RequestTable, row: RequestRow, met: &Met) -> Result<(), AllocError>
    requires { lacks_values handing.old.next met.now ≡ false }
    ensures ok { OnOk result (handing.new ≡ with_handed row met.now handing.old) }
    ensures err { OnErr result (handing.new ≡ handing.old) }
{
    if met.is_empty() {
        return Ok(());
    }
    handing.hand(row, met.as_slice())
}

/// The end of a get's request gives the get this session's final.
fn note_end(asking: &mut GetTable, finished: Finished)
    ensures { asking.new ≡ with_ended finished asking.old }
{
    match finished {
        Finished::Last(row) => note_answered(asking, row),
        Finished::MoreLeft => {}
        Finished::Unknown => {}
    }
}

/// A request that was answered whole gives its get this session's final, where the get is this session's own.
fn note_answered(asking: &mut GetTable, row: RequestRow)
    ensures { asking.new ≡ with_ended (Finished.Last row) asking.old }
{
    if row.local {
        asking.note_local_final(row.rid);
    }
    drop(row);
}
