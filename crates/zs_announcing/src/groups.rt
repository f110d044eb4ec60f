//! What the network is told where entities join and leave a group.

ghost use Rattle.std.specs.Prelude.{◌≡◌, None, IfOk};
ghost use Rattle.std.specs.Option.{option_map, option_copied};
ghost use Rattle.zs_subscriptions.specs.Recipients.{has_network};
ghost use Rattle.zs_model.specs.Groups.{aggregate_of, aggregates_of, company_at, joins_first, sends_if, last_sends, leaving, declaration_by, end_by};
ghost use Rattle.zs_model.specs.Sends.{group_wire};
ghost use Rattle.zs_model.specs.Effects.{key_wire};
ghost use Rattle.zs_world.specs.Decisions.{own_keys_at};

use crate::wires::{declared_by, wire_form};
use std::alloc::AllocError;
use zs_events::{Effects, KeyArg};
use zs_keys::KeyExpr;
use zs_making::groups::{declaration_by, end_by, joins_first, last_number};
use zs_making::wires::{full_wire, push_send};
use zs_model::{KeyList, aggregate_of, has_network};
use zs_sample::Locality;
use zs_tables::GroupKind;
use zs_wire::WireExpr;
use zs_world::{Entity, SessionTables};

/// The form of a key in the declaration of its group: the whole text of its aggregate, where it has one.
fn group_wire(
    world: &SessionTables,
    aggregates: &KeyList,
    key: &KeyArg,
    resolved: &KeyExpr<'_>,
) -> Result<WireExpr, AllocError>
    ensures { IfOk result (λ wire. wire ≡ group_wire aggregates.now resolved.now.text (key_wire (own_keys_at world.now) resolved.now.text key.now)) }
{
    match aggregate_of(aggregates.as_slice(), resolved) {
        Some(aggregate) => full_wire(world.alloc, aggregate.as_str()),
        None => {
            let declared = declared_by(world, key, resolved.as_str())?;
            wire_form(world, resolved.as_str(), declared)
        }
    }
}

/// What is sent where an entity joins the group of its text: the declaration of a group that had no members.
pub fn joining(
    world: &SessionTables,
    kind: GroupKind,
    aggregates: &KeyList,
    id: u32,
    destination: Locality,
    key: &KeyArg,
    resolved: &KeyExpr<'_>,
) -> Result<Effects, AllocError>
    requires { aggregates.now ≡ aggregates_of kind world.now.settings }
    ensures { IfOk result (λ effects. effects
        ≡ sends_if (joins_first (company_at world.now.settings world.now.groups kind) (record { id = id; is_announced = has_network destination; text = resolved.now.text }))
        (declaration_by kind id (group_wire aggregates.now resolved.now.text (key_wire (own_keys_at world.now) resolved.now.text key.now)))) }
{
    let mut effects = Effects::new(world.alloc);
    let is_announced = has_network(destination);
    if joins_first(&world.groups, kind, aggregates, is_announced, resolved) {
        let wire = group_wire(world, aggregates, key, resolved)?;
        push_send(world.alloc, &mut effects, declaration_by(kind, id, wire))?;
    }
    Ok(effects)
}

/// What is sent where an entity leaves it, if it is there: the end of a group that has no other.
pub fn leaving<R: Entity>(
    world: &SessionTables,
    kind: GroupKind,
    aggregates: &KeyList,
    row: Option<&R>,
) -> Result<Effects, AllocError>
    requires { aggregates.now ≡ aggregates_of kind world.now.settings }
    ensures { IfOk result (λ effects. effects
        ≡ leaving (company_at world.now.settings world.now.groups kind) (end_by kind) (option_map R.shared (option_copied row.entry))) }
{
    let mut effects = Effects::new(world.alloc);
    if let Some(number) = last_number_of(world, kind, aggregates, row) {
        push_send(world.alloc, &mut effects, end_by(kind, number))?;
    }
    Ok(effects)
}

/// The number of the group that an entity leaves as its last member, if it is there and the network was told of it.
fn last_number_of<R: Entity>(
    world: &SessionTables,
    kind: GroupKind,
    aggregates: &KeyList,
    row: Option<&R>,
) -> Option<u32>
    requires { aggregates.now ≡ aggregates_of kind world.now.settings }
    ensures { leaving (company_at world.now.settings world.now.groups kind) (end_by kind) (option_map R.shared (option_copied row.entry)) ≡ last_sends (end_by kind) result }
{
    let Some(row) = row else {
        return None;
    };
    let is_announced = has_network(row.destination());
    last_number(&world.groups, kind, aggregates, is_announced, row.key())
}
