//! Ends of subscribers, as effects.

ghost use Rattle.std.specs.Prelude.{◌≡◌, ◌++◌, OnOk};
ghost use Rattle.zs_model.specs.Subscribers.{sub_ends};

use std::alloc::AllocError;
use zs_events::{Effect, Effects, Kind};
use zs_tables::Tables;

/// Adds that these subscribers are called no more.
pub fn push_ends(effects: &mut Effects, tables: &Tables) -> Result<(), AllocError>
    ensures { OnOk result (effects.new ≡ effects.old ++ sub_ends tables.now.rows) }
{
    for (_id, row) in tables.iter() {
        effects.push(Effect::End {
            kind: Kind::Subscriber,
            id: row.id,
        })?;
    }
    Ok(())
}
