//! Subscribers are declared and undeclared; a session closes.

ghost use Rattle.std.specs.Prelude.{◌≡◌, ◌<◌, Some, IfOk, ◌&&◌, ◌==◌, not};
ghost use Rattle.zs_events.specs.declared.chan.Chan.{Chan};
ghost use Rattle.zs_world.specs.Decisions.{open_decision};
ghost use Rattle.std.specs.List.{list_any};
ghost use Rattle.zs_model.specs.Groups.{leaving};
ghost use Rattle.zs_model.specs.Subscribers.{is_sub};

use crate::groups::{joining, leaving};
use crate::keys::resolve;
use std::alloc::AllocError;
use zs_events::{Effect, Effects, EntityKind, Event, KeyArg, Kind, Refusal};
use zs_making::get_effects::push_get_ends;
use zs_making::queryables::push_queryable_ends;
use zs_making::subscribers::push_ends;
use zs_making::tokens::{push_asking_ends, push_lsub_ends};
use zs_making::wires::push_send;
use zs_model::into_owned;
use zs_sample::Locality;
use zs_tables::{GroupKind, SubRow};
use zs_wire::Message;
use zs_world::{Change, Decision, EntityChange, EntityRow, SessionTables};

/// A subscriber is declared. The network hears of the first one of a group, if it is in the origin.
pub fn decide_sub(
    world: &SessionTables,
    origin: Locality,
    key: &KeyArg,
) -> Result<Decision, AllocError>
    ensures { IfOk result (λ made. made ≡ open_decision world.now (Event.Sub origin key.now Chan.Print)) }
{
    let resolved = match resolve(world, key)? {
        Ok(key) => key,
        Err(refusal) => return Ok(Decision::refused(world.alloc, refusal)),
    };
    if u32::MAX - world.next_entity < 1 {
        return Ok(Decision::refused(world.alloc, Refusal::IdsExhausted));
    }
    let id = world.next_entity;
    let row = SubRow {
        id,
        origin,
        key: into_owned(world.alloc, resolved)?,
    };
    let aggregates = &world.settings.aggregated_subscribers;
    let effects = joining(
        world,
        GroupKind::Subscribers,
        aggregates,
        id,
        origin,
        key,
        &row.key,
    )?;
    let change = Change::OfEntities(EntityChange::Add(EntityRow::Sub(row)));
    Ok(Decision::accepted(Some(id), effects, change))
}

/// A subscriber ends. The network hears of the last one of a group that it was told of. `NotFound` also where the
/// subscriber was left to itself.
pub fn decide_undeclare_sub(world: &SessionTables, id: u32) -> Result<Decision, AllocError>
    ensures { IfOk result (λ made. made ≡ open_decision world.now (Event.Undeclare EntityKind.Sub id)) }
{
    if !names_sub(world, id) {
        return Ok(Decision::refused(world.alloc, Refusal::NotFound));
    }
    let row = world.tables.row(id);
    let aggregates = &world.settings.aggregated_subscribers;
    let mut effects = leaving(world, GroupKind::Subscribers, aggregates, row)?;
    effects.push(Effect::End {
        kind: Kind::Subscriber,
        id,
    })?;
    Ok(Decision::of(
        effects,
        Change::OfEntities(EntityChange::End {
            kind: EntityKind::Sub,
            id,
        }),
    ))
}

/// Whether a subscriber of that number can be named.
pub fn names_sub(world: &SessionTables, id: u32) -> bool
    ensures { result ≡ (is_sub id world.now.entities.subs && not (list_any (λ other. other == id) world.now.entities.left_subs)) }
{
    world.tables.has(id) && !world.left_subs.contains(id)
}

/// The session closes: the network is told, then queryables end, subscribers, those to liveliness, gets and the gets of
/// tokens.
pub fn decide_close(world: &SessionTables) -> Result<Decision, AllocError>
    ensures { IfOk result (λ made. made ≡ open_decision world.now Event.Close) }
{
    let gets = world.asking.gets().numbers()?;
    let asking = world.liveliness.gets().numbers(world.alloc)?;
    let mut effects = Effects::new(world.alloc);
    push_send(world.alloc, &mut effects, Message::Close)?;
    push_queryable_ends(&mut effects, &world.queryables)?;
    push_ends(&mut effects, &world.tables)?;
    push_lsub_ends(&mut effects, world.liveliness.subs())?;
    push_get_ends(&gets, &mut effects)?;
    push_asking_ends(&asking, &mut effects)?;
    Ok(Decision::of(effects, Change::Shut))
}
