//! Queriers, which share a network declaration by their keys.

ghost use Rattle.std.specs.Prelude.{◌≡◌, Some, IfOk};
ghost use Rattle.std.specs.Option.{option_copied};
ghost use Rattle.zs_world.specs.Decisions.{open_decision};
ghost use Rattle.zs_model.specs.Queriers.{querier_at, querier_declaration};

use crate::groups::{joining, leaving};
use crate::keys::resolve;
use std::alloc::AllocError;
use zs_events::{EntityKind, Event, KeyArg, QuerySettings, Refusal};
use zs_keys::Declared;
use zs_making::ended_gets::{Ender, push_cut_gets};
use zs_making::publishers::prefix_of;
use zs_making::queriers::querier_declaration;
use zs_model::{KeyList, QuerierRow, into_owned};
use zs_tables::GroupKind;
use zs_world::{Change, Decision, EntityChange, EntityRow, SessionTables};

/// A querier is declared. The network hears of the first one on a key, if it is in the destination: queriers have
/// no aggregates.
pub fn decide_querier(
    world: &SessionTables,
    key: &KeyArg,
    settings: QuerySettings,
) -> Result<Decision, AllocError>
    ensures { IfOk result (λ made. made ≡ open_decision world.now (Event.Querier key.now settings)) }
{
    let resolved = match resolve(world, key)? {
        Ok(key) => key,
        Err(refusal) => return Ok(Decision::refused(world.alloc, refusal)),
    };
    if u32::MAX - world.next_entity < 1 {
        return Ok(Decision::refused(world.alloc, Refusal::IdsExhausted));
    }
    let id = world.next_entity;
    let prefix = prefix_of(key, &resolved)?;
    let owned = into_owned(world.alloc, resolved)?;
    let row = QuerierRow {
        id,
        key: owned,
        prefix,
        settings,
    };
    let alone = KeyList::new();
    let destination = settings.destination;
    let effects = joining(
        world,
        GroupKind::Queriers,
        &alone,
        id,
        destination,
        key,
        &row.key,
    )?;
    let change = Change::OfEntities(EntityChange::Add(EntityRow::Querier(row)));
    Ok(Decision::accepted(Some(id), effects, change))
}

/// A querier ends, and with it its open gets, whatever they miss, and the listeners to it.
pub fn decide_undeclare_querier(world: &SessionTables, id: u32) -> Result<Decision, AllocError>
    ensures { IfOk result (λ made. made ≡ open_decision world.now (Event.Undeclare EntityKind.Querier id)) }
{
    if !world.queriers.has(id) {
        return Ok(Decision::refused(world.alloc, Refusal::NotFound));
    }
    let alone = KeyList::new();
    let row = world.queriers.get(id);
    let mut effects = leaving(world, GroupKind::Queriers, &alone, row)?;
    push_cut_gets(world.asking.gets(), Ender::Querier(id), &mut effects)?;
    let change = Change::OfEntities(EntityChange::End {
        kind: EntityKind::Querier,
        id,
    });
    Ok(Decision::of(effects, change))
}

/// The querier of that number, if it is live.
pub fn live_querier(world: &SessionTables, id: u32) -> Option<&QuerierRow>
    ensures { option_copied result ≡ querier_at id world.now.entities.queriers }
{
    world.queriers.get(id)
}

/// The declaration of a querier's key, where it was named by a declared one.
pub fn queried(world: &SessionTables, id: u32) -> Option<Declared>
    ensures { result ≡ querier_declaration world.now.settings.tag (querier_at id world.now.entities.queriers) }
{
    match world.queriers.get(id) {
        Some(row) => querier_declaration(world.settings.tag, row),
        None => None,
    }
}
