//! What listeners hear of a change.

ghost use Rattle.std.specs.Prelude.{◌≡◌, ◌++◌, ◌∷◌, [], ◌==◌, map, filter, OnOk};
ghost use Rattle.zs_tables.specs.Matching.{own_sub, own_queryable, remote_subscriber, remote_queryable, seen_if, recounts, is_heard};
ghost use Rattle.zs_world.specs.Decisions.{listener_effects_at};
ghost use Rattle.zs_world.specs.Changes.{Fits, with_change};
ghost use Rattle.zs_world.specs.EntityChanges.{EntitiesFit};
ghost use Rattle.zs_entity_tables.specs.MatchingTables.{heard_effect};
ghost use Rattle.zs_model.specs.Listeners.{listener_ends};
ghost use Rattle.zs_subscriptions.specs.Ascending.{Ascend};

use std::alloc::AllocError;
use zs_events::{Effect, Effects, EntityKind, Kind};
use zs_tables::{
    Candidate, ListenerRow, ListenerTable, QueryableRow, Recount, RemoteQueryable,
    RemoteSubscriber, SubRow,
};
use zs_world::{
    Change, EntityChange, EntityRow, MatchingChange, SessionTables, own_queryable_of, own_sub_of,
    remote_queryable_of, remote_subscriber_of,
};

/// What a change means to listeners: those that it ends are called no more, and those hear of it for which it changes
/// whether anyone matches. It looks at those alone whose key meets that of who comes or goes.
pub fn hear(world: &SessionTables, change: &Change, effects: &mut Effects) -> Result<(), AllocError>
    requires { Fits world.now change.now }
    ensures { OnOk result (effects.new ≡ effects.old ++ listener_effects_at world.now (with_change change.now world.now)) }
{
    match change {
        Change::OfEntities(change) => hear_entities(world, change, effects),
        Change::OfMatching(change) => hear_matching(world, change, effects),
        Change::Shut => push_ends(world.matching.listeners(), effects),
        Change::Nothing => Ok(()),
        Change::OfKeys(_) => Ok(()),
        Change::OfNetwork(_) => Ok(()),
        Change::OfGets(_) => Ok(()),
        Change::OfLiveliness(_) => Ok(()),
        Change::OfValues(_) => Ok(()),
        Change::OfCancellation(_) => Ok(()),
    }
}

/// Of entities.
fn hear_entities(
    world: &SessionTables,
    change: &EntityChange,
    effects: &mut Effects,
) -> Result<(), AllocError>
    requires { EntitiesFit world.now.counters.entity change.now }
    ensures { OnOk result (effects.new ≡ effects.old ++ listener_effects_at world.now (with_change (Change.OfEntities change.now) world.now)) }
{
    match change {
        EntityChange::Add(row) => hear_added(world, row, effects),
        EntityChange::End { kind, id } => hear_end(world, *kind, *id, effects),
        EntityChange::Leave { .. } => Ok(()),
    }
}

/// Of one that comes.
fn hear_added(
    world: &SessionTables,
    row: &EntityRow,
    effects: &mut Effects,
) -> Result<(), AllocError>
    requires { EntitiesFit world.now.counters.entity (EntityChange.Add row.now) }
    ensures { OnOk result (effects.new ≡ effects.old
        ++ listener_effects_at world.now (with_change (Change.OfEntities (EntityChange.Add row.now)) world.now)) }
{
    match row {
        EntityRow::Sub(row) => hear_sub(world, row, effects),
        EntityRow::Queryable(row) => hear_queryable(world, row, effects),
        EntityRow::Listener(row) => hear_first(world, row, effects),
        EntityRow::Pub(_) => Ok(()),
        EntityRow::Querier(_) => Ok(()),
        EntityRow::Token(_) => Ok(()),
        EntityRow::Lsub(_) => Ok(()),
    }
}

/// Of one that goes.
fn hear_end(
    world: &SessionTables,
    kind: EntityKind,
    id: u32,
    effects: &mut Effects,
) -> Result<(), AllocError>
    ensures { OnOk result (effects.new ≡ effects.old
        ++ listener_effects_at world.now (with_change (Change.OfEntities (EntityChange.End kind id)) world.now)) }
{
    match kind {
        EntityKind::Sub => hear_sub_end(world, id, effects),
        EntityKind::Pub => hear_pub_end(world, id, effects),
        EntityKind::Queryable => hear_queryable_end(world, id, effects),
        EntityKind::Querier => hear_querier_end(world, id, effects),
        EntityKind::Listener => hear_listener_end(world, id, effects),
        EntityKind::Token => Ok(()),
        EntityKind::Lsub => Ok(()),
    }
}

/// Of whom the network tells.
fn hear_matching(
    world: &SessionTables,
    change: &MatchingChange,
    effects: &mut Effects,
) -> Result<(), AllocError>
    ensures { OnOk result (effects.new ≡ effects.old ++ listener_effects_at world.now (with_change (Change.OfMatching change.now) world.now)) }
{
    match change {
        MatchingChange::TellSub { row } => hear_remote_subscriber(world, row, effects),
        MatchingChange::ForgetSub { number } => hear_remote_subscriber_end(world, *number, effects),
        MatchingChange::TellQueryable { row } => hear_remote_queryable(world, row, effects),
        MatchingChange::ForgetQueryable { number } => {
            hear_remote_queryable_end(world, *number, effects)
        }
    }
}

/// A subscriber comes.
fn hear_sub(world: &SessionTables, row: &SubRow, effects: &mut Effects) -> Result<(), AllocError>
    ensures { OnOk result (effects.new ≡ effects.old
        ++ listener_effects_at world.now (with_change (Change.OfEntities (EntityChange.Add (EntityRow.Sub row.now))) world.now)) }
{
    let comes = Some(Candidate::own_sub(row));
    push_heard(world.matching.listeners(), None, comes, effects)
}

/// A subscriber goes.
fn hear_sub_end(world: &SessionTables, id: u32, effects: &mut Effects) -> Result<(), AllocError>
    ensures { OnOk result (effects.new ≡ effects.old
        ++ listener_effects_at world.now (with_change (Change.OfEntities (EntityChange.End EntityKind.Sub id)) world.now)) }
{
    let _ascending = world.tables.len();
    let goes = own_sub_of(&world.tables, id);
    push_heard(world.matching.listeners(), goes, None, effects)
}

/// A queryable comes.
fn hear_queryable(
    world: &SessionTables,
    row: &QueryableRow,
    effects: &mut Effects,
) -> Result<(), AllocError>
    ensures { OnOk result (effects.new ≡ effects.old
        ++ listener_effects_at world.now (with_change (Change.OfEntities (EntityChange.Add (EntityRow.Queryable row.now))) world.now)) }
{
    let comes = Some(Candidate::own_queryable(row));
    push_heard(world.matching.listeners(), None, comes, effects)
}

/// A queryable goes.
fn hear_queryable_end(
    world: &SessionTables,
    id: u32,
    effects: &mut Effects,
) -> Result<(), AllocError>
    ensures { OnOk result (effects.new ≡ effects.old
        ++ listener_effects_at world.now (with_change (Change.OfEntities (EntityChange.End EntityKind.Queryable id)) world.now)) }
{
    let _ascending = world.queryables.len();
    let goes = own_queryable_of(&world.queryables, id);
    push_heard(world.matching.listeners(), goes, None, effects)
}

/// A publisher ends, and with it those that listen to it.
fn hear_pub_end(world: &SessionTables, id: u32, effects: &mut Effects) -> Result<(), AllocError>
    ensures { OnOk result (effects.new ≡ effects.old
        ++ listener_effects_at world.now (with_change (Change.OfEntities (EntityChange.End EntityKind.Pub id)) world.now)) }
{
    push_ends_of(world.matching.listeners(), id, effects)
}

/// A querier ends, and with it those that listen to it.
fn hear_querier_end(world: &SessionTables, id: u32, effects: &mut Effects) -> Result<(), AllocError>
    ensures { OnOk result (effects.new ≡ effects.old
        ++ listener_effects_at world.now (with_change (Change.OfEntities (EntityChange.End EntityKind.Querier id)) world.now)) }
{
    push_ends_of(world.matching.listeners(), id, effects)
}

/// A new listener hears at once where anyone matches.
fn hear_first(
    world: &SessionTables,
    row: &ListenerRow,
    effects: &mut Effects,
) -> Result<(), AllocError>
    requires { EntitiesFit world.now.counters.entity (EntityChange.Add (EntityRow.Listener row.now)) }
    ensures { OnOk result (effects.new ≡ effects.old
        ++ listener_effects_at world.now (with_change (Change.OfEntities (EntityChange.Add (EntityRow.Listener row.now))) world.now)) }
{
    let count = world.present().count(world.alloc, row)?;
    if count == 0 {
        return Ok(());
    }
    effects.push(Effect::Matching {
        id: row.id,
        matching: true,
    })
}

/// A listener ends.
fn hear_listener_end(
    world: &SessionTables,
    id: u32,
    effects: &mut Effects,
) -> Result<(), AllocError>
    ensures { OnOk result (effects.new ≡ effects.old
        ++ listener_effects_at world.now (with_change (Change.OfEntities (EntityChange.End EntityKind.Listener id)) world.now)) }
{
    let _ascending = world.matching.listeners().len();
    push_end(world.matching.listeners(), id, effects)
}

/// The network tells a subscriber, in place of the one of its number.
fn hear_remote_subscriber(
    world: &SessionTables,
    row: &RemoteSubscriber,
    effects: &mut Effects,
) -> Result<(), AllocError>
    ensures { OnOk result (effects.new ≡ effects.old
        ++ listener_effects_at world.now (with_change (Change.OfMatching (MatchingChange.TellSub row.now)) world.now)) }
{
    let _ascending = world.matching.remote_entities().sub_count();
    let goes = remote_subscriber_of(world.matching.remote_entities(), row.number);
    let comes = Some(Candidate::remote_subscriber(row));
    push_heard(world.matching.listeners(), goes, comes, effects)
}

/// The network ends a subscriber.
fn hear_remote_subscriber_end(
    world: &SessionTables,
    number: u32,
    effects: &mut Effects,
) -> Result<(), AllocError>
    ensures { OnOk result (effects.new ≡ effects.old
        ++ listener_effects_at world.now (with_change (Change.OfMatching (MatchingChange.ForgetSub number)) world.now)) }
{
    let _ascending = world.matching.remote_entities().sub_count();
    let goes = remote_subscriber_of(world.matching.remote_entities(), number);
    push_heard(world.matching.listeners(), goes, None, effects)
}

/// The network tells a queryable, in place of the one of its number.
fn hear_remote_queryable(
    world: &SessionTables,
    row: &RemoteQueryable,
    effects: &mut Effects,
) -> Result<(), AllocError>
    ensures { OnOk result (effects.new ≡ effects.old
        ++ listener_effects_at world.now (with_change (Change.OfMatching (MatchingChange.TellQueryable row.now)) world.now)) }
{
    let _ascending = world.matching.remote_entities().queryable_count();
    let goes = remote_queryable_of(world.matching.remote_entities(), row.number);
    let comes = Some(Candidate::remote_queryable(row));
    push_heard(world.matching.listeners(), goes, comes, effects)
}

/// The network ends a queryable.
fn hear_remote_queryable_end(
    world: &SessionTables,
    number: u32,
    effects: &mut Effects,
) -> Result<(), AllocError>
    ensures { OnOk result (effects.new ≡ effects.old
        ++ listener_effects_at world.now (with_change (Change.OfMatching (MatchingChange.ForgetQueryable number)) world.now)) }
{
    let _ascending = world.matching.remote_entities().queryable_count();
    let goes = remote_queryable_of(world.matching.remote_entities(), number);
    push_heard(world.matching.listeners(), goes, None, effects)
}

/// Those listeners hear whose status changes where one candidate goes and another one comes.
fn push_heard(
    listeners: &ListenerTable,
    goes: Option<Candidate<'_>>,
    comes: Option<Candidate<'_>>,
    effects: &mut Effects,
) -> Result<(), AllocError>
    ensures { OnOk result (effects.new ≡ effects.old ++ map heard_effect (filter is_heard (recounts (seen_if goes.entry) (seen_if comes.entry) listeners.now))) }
{
    let all = listeners.recounts(goes, comes)?;
    for one in &all {
        push_one(one, effects)?;
    }
    Ok(())
}

/// A listener whose status changes hears the new one: whether its count is above 0. One whose doesn't hears nothing.
fn push_one(one: &Recount, effects: &mut Effects) -> Result<(), AllocError>
    ensures { OnOk result (effects.new ≡ effects.old ++ map heard_effect (filter is_heard (one.now ∷ []))) }
{
    if !one.is_heard() {
        return Ok(());
    }
    effects.push(Effect::Matching {
        id: one.id,
        matching: one.is > 0,
    })
}

/// All listeners are called no more.
fn push_ends(listeners: &ListenerTable, effects: &mut Effects) -> Result<(), AllocError>
    ensures { OnOk result (effects.new ≡ effects.old ++ listener_ends (map (λ l. l.row) listeners.now)) }
{
    for (_id, listener) in listeners.iter() {
        effects.push(end_of(listener.row.id))?;
    }
    Ok(())
}

/// Nor are those of a publisher or querier.
fn push_ends_of(
    listeners: &ListenerTable,
    parent: u32,
    effects: &mut Effects,
) -> Result<(), AllocError>
    ensures ends { OnOk result (effects.new ≡ effects.old ++ listener_ends (filter (λ row. row.parent == parent) (map (λ l. l.row) listeners.now))) }
    ensures ascending { Ascend (λ l. l.row.id) listeners.now }
{
    let _ascending = listeners.len();
    let mut last = None;
    while let Some(id) = listeners.next_of(parent, last) {
        effects.push(end_of(id))?;
        last = Some(id);
    }
    Ok(())
}

/// Nor is that of a number, if it is there.
fn push_end(listeners: &ListenerTable, id: u32, effects: &mut Effects) -> Result<(), AllocError>
    ensures { OnOk result (effects.new ≡ effects.old ++ listener_ends (filter (λ row. row.id == id) (map (λ l. l.row) listeners.now))) }
{
    let _ascending = listeners.len();
    if !listeners.has(id) {
        return Ok(());
    }
    effects.push(end_of(id))
}

/// The end of the listener of that number.
fn end_of(id: u32) -> Effect
    ensures { result ≡ Effect.End Kind.Listener id }
{
    Effect::End {
        kind: Kind::Listener,
        id,
    }
}
