//! Entities join and leave the groups that share a declaration to the network.

ghost use Rattle.std.specs.Prelude.{◌≡◌, ◌<◌, ◌++◌, ◌∷◌, [], All, OnOk, OnErr};
ghost use Rattle.std.specs.Option.{option_map, option_copied};
ghost use Rattle.zs_tables.specs.Groups.{groups_of, with_groups};
ghost use Rattle.zs_subscriptions.specs.Recipients.{has_network};
ghost use Rattle.zs_model.specs.Groups.{joined_by, left_by, left_found};

use crate::entity::Entity;
use crate::entity_table::EntityTable;
use std::alloc::{AllocError, Global};
use zs_keys::KeyExpr;
use zs_model::{KeyList, copy_of, has_network, share_text};
use zs_tables::{GroupKind, Groups};

/// An entity is there, and in the group of its text.
pub fn add_to_group<R: Entity>(
    alloc: Global,
    table: &mut EntityTable<R>,
    groups: &mut Groups,
    kind: GroupKind,
    aggregates: &KeyList,
    row: R,
) -> Result<(), AllocError>
    requires { All (λ other. (R.shared other).id < (R.shared row).id) table.old }
    ensures table { OnOk result (table.new ≡ table.old ++ row ∷ []) }
    ensures groups { OnOk result (groups.new ≡ with_groups kind (joined_by aggregates.now (R.shared row) (groups_of kind groups.old)) groups.old) }
    ensures same_table { OnErr result (table.new ≡ table.old) }
    ensures same_groups { OnErr result (groups.new ≡ groups.old) }
{
    let id = row.id();
    let is_announced = has_network(row.destination());
    let key = copy_of(alloc, row.key())?;
    table.add(row)?;
    if let Err(error) = join_group(groups, kind, aggregates, is_announced, &key, id) {
        table.remove(id);
        return Err(error);
    }
    Ok(())
}

/// An entity leaves the group of its text, if it is there.
pub fn leave_found<R: Entity>(
    groups: &mut Groups,
    kind: GroupKind,
    aggregates: &KeyList,
    row: Option<&R>,
)
    ensures { groups.new ≡ with_groups kind (left_found aggregates.now (option_map R.shared (option_copied row.entry)) (groups_of kind groups.old)) groups.old }
{
    if let Some(row) = row {
        let is_announced = has_network(row.destination());
        leave_group(groups, kind, aggregates, is_announced, row.key(), row.id());
    }
}

/// An entity joins the group of its text, if the network is told of it.
pub fn join_group(
    groups: &mut Groups,
    kind: GroupKind,
    aggregates: &KeyList,
    is_announced: bool,
    key: &KeyExpr<'static>,
    id: u32,
) -> Result<(), AllocError>
    ensures ok { OnOk result (groups.new ≡ with_groups kind
        (joined_by aggregates.now (record { id = id; is_announced = is_announced; text = key.now.text }) (groups_of kind groups.old)) groups.old) }
    ensures err { OnErr result (groups.new ≡ groups.old) }
{
    if !is_announced {
        return Ok(());
    }
    groups.join(kind, share_text(aggregates, key), id)?;
    Ok(())
}

/// An entity leaves the group of its text, if the network was told of it.
fn leave_group(
    groups: &mut Groups,
    kind: GroupKind,
    aggregates: &KeyList,
    is_announced: bool,
    key: &KeyExpr<'static>,
    id: u32,
)
    ensures { groups.new ≡ with_groups kind
        (left_by aggregates.now (record { id = id; is_announced = is_announced; text = key.now.text }) (groups_of kind groups.old)) groups.old }
{
    if is_announced {
        groups.leave(kind, share_text(aggregates, key), id);
    }
}
