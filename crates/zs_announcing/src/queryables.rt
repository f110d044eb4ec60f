//! Queryables are declared and undeclared.

ghost use Rattle.std.specs.Prelude.{◌≡◌, ◌++◌, ◌&&◌, ◌==◌, [], not, Some, None, IfOk};
ghost use Rattle.std.specs.List.{list_any};
ghost use Rattle.zs_world.specs.Decisions.{known_at, open_decision};
ghost use Rattle.zs_model.specs.Effects.{entity_sends};

use crate::keys::resolve;
use crate::wires::{declared_by, wire_form};
use std::alloc::AllocError;
use zs_events::{Effect, Effects, EntityKind, Event, KeyArg, Kind, Refusal};
use zs_making::wires::push_send;
use zs_model::{has_network, into_owned};
use zs_sample::Locality;
use zs_tables::QueryableRow;
use zs_wire::Message;
use zs_world::{Change, Decision, EntityChange, EntityRow, SessionTables};

/// A queryable is declared. It shares its declaration with no other, even on the same key.
pub fn decide_queryable(
    world: &SessionTables,
    origin: Locality,
    complete: bool,
    key: &KeyArg,
) -> Result<Decision, AllocError>
    ensures { IfOk result (λ made. made ≡ open_decision world.now (Event.Queryable origin complete key.now)) }
{
    let resolved = match resolve(world, key)? {
        Ok(key) => key,
        Err(refusal) => return Ok(Decision::refused(world.alloc, refusal)),
    };
    if u32::MAX - world.next_entity < 1 {
        return Ok(Decision::refused(world.alloc, Refusal::IdsExhausted));
    }
    let id = world.next_entity;
    let row = QueryableRow {
        id,
        origin,
        complete,
        key: into_owned(world.alloc, resolved)?,
    };
    let effects = declaring_queryable(world, &row, key)?;
    let change = Change::OfEntities(EntityChange::Add(EntityRow::Queryable(row)));
    Ok(Decision::accepted(Some(id), effects, change))
}

/// A queryable ends. `NotFound` also where it was left to itself.
pub fn decide_undeclare_queryable(world: &SessionTables, id: u32) -> Result<Decision, AllocError>
    ensures { IfOk result (λ made. made ≡ open_decision world.now (Event.Undeclare EntityKind.Queryable id)) }
{
    if !names_queryable(world, id) {
        return Ok(Decision::refused(world.alloc, Refusal::NotFound));
    }
    let mut effects = ending_queryable(world, id)?;
    effects.push(Effect::End {
        kind: Kind::Queryable,
        id,
    })?;
    let change = Change::OfEntities(EntityChange::End {
        kind: EntityKind::Queryable,
        id,
    });
    Ok(Decision::of(effects, change))
}

/// What is sent where a queryable is declared: its declaration, where the network is in its origin.
fn declaring_queryable(
    world: &SessionTables,
    row: &QueryableRow,
    key: &KeyArg,
) -> Result<Effects, AllocError>
    ensures { IfOk result (λ effects. effects
        ≡ entity_sends (known_at world.now) (Event.Queryable row.now.origin row.now.complete key.now) (Some row.now.id) (Some row.now.key.text) ++ []) }
{
    let mut effects = Effects::new(world.alloc);
    if has_network(row.origin) {
        let text = row.key.as_str();
        let declared = declared_by(world, key, text)?;
        let wire = wire_form(world, text, declared)?;
        let declaration = Message::DeclareQueryable {
            id: row.id,
            complete: row.complete,
            wire,
        };
        push_send(world.alloc, &mut effects, declaration)?;
    }
    Ok(effects)
}

/// What is sent where a queryable ends: its end, where the network was told of it.
fn ending_queryable(world: &SessionTables, id: u32) -> Result<Effects, AllocError>
    ensures { IfOk result (λ effects. effects ≡ entity_sends (known_at world.now) (Event.Undeclare EntityKind.Queryable id) None None) }
{
    let mut effects = Effects::new(world.alloc);
    let Some(row) = world.queryables.find(id) else {
        return Ok(effects);
    };
    if has_network(row.origin) {
        push_send(
            world.alloc,
            &mut effects,
            Message::UndeclareQueryable { id: row.id },
        )?;
    }
    Ok(effects)
}

/// Whether a queryable of that number can be named.
pub fn names_queryable(world: &SessionTables, id: u32) -> bool
    ensures { result
        ≡ (list_any (λ row. row.id == id) world.now.entities.queryables && not (list_any (λ other. other == id) world.now.entities.left_queryables)) }
{
    world.queryables.has(id) && !world.left_queryables.contains(id)
}
