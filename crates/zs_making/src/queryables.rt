//! Ends of queryables, as effects.

ghost use Rattle.std.specs.Prelude.{◌≡◌, ◌++◌, OnOk};
ghost use Rattle.zs_model.specs.Queryables.{queryable_ends};

use std::alloc::AllocError;
use zs_events::{Effect, Effects, Kind};
use zs_tables::QueryableTable;

/// Adds that all queryables are asked no more.
pub fn push_queryable_ends(
    effects: &mut Effects,
    queryables: &QueryableTable,
) -> Result<(), AllocError>
    ensures { OnOk result (effects.new ≡ effects.old ++ queryable_ends queryables.now) }
{
    for (_id, row) in queryables.iter() {
        effects.push(Effect::End {
            kind: Kind::Queryable,
            id: row.id,
        })?;
    }
    Ok(())
}
