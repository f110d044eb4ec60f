//! Matching: listeners, whether anyone matches, and whom the network tells.

ghost use Rattle.std.specs.Prelude.{◌≡◌, ◌&&◌, ◌==◌, not, Some, IfOk};
ghost use Rattle.std.specs.List.{list_any};
ghost use Rattle.zs_events.specs.Kinds.{parent_kind_of};
ghost use Rattle.zs_tables.specs.Listeners.{listed};
ghost use Rattle.zs_world.specs.Decisions.{open_decision};
ghost use Rattle.zs_model.specs.Listeners.{on_pub, on_querier, listening, is_listener};
ghost use Rattle.zs_model.specs.Matching.{as_number};

use crate::keys::resolve_wire;
use crate::publishers::live_publisher;
use crate::queriers::live_querier;
use std::alloc::AllocError;
use zs_events::{Effects, EntityKind, Event, ParentKind, Refusal};
use zs_making::matching::{as_number, on_pub, on_querier};
use zs_model::into_owned;
use zs_tables::{ListenerRow, RemoteQueryable, RemoteSubscriber};
use zs_wire::{Message, WireExpr};
use zs_world::{Change, Decision, EntityChange, EntityRow, MatchingChange, SessionTables};

/// A listener to a publisher or querier is declared; the network isn't told. `NotFound` where that doesn't live.
pub fn decide_listen(
    world: &SessionTables,
    parent: ParentKind,
    id: u32,
) -> Result<Decision, AllocError>
    ensures { IfOk result (λ made. made ≡ open_decision world.now (Event.Listen parent id)) }
{
    let number = world.next_entity;
    let Some(row) = listening(world, number, parent, id)? else {
        return Ok(Decision::refused(world.alloc, Refusal::NotFound));
    };
    if u32::MAX - world.next_entity < 1 {
        return Ok(Decision::refused(world.alloc, Refusal::IdsExhausted));
    }
    let change = Change::OfEntities(EntityChange::Add(EntityRow::Listener(row)));
    Ok(Decision::accepted(Some(number), Effects::new(world.alloc), change))
}

/// Whether anyone matches a publisher or querier now, answered as 1 or 0. `NotFound` where that doesn't live.
pub fn decide_status(
    world: &SessionTables,
    parent: ParentKind,
    id: u32,
) -> Result<Decision, AllocError>
    ensures { IfOk result (λ made. made ≡ open_decision world.now (Event.Status parent id)) }
{
    let Some(row) = listening(world, 0, parent, id)? else {
        return Ok(Decision::refused(world.alloc, Refusal::NotFound));
    };
    let count = world.present().count(world.alloc, &row)?;
    Ok(Decision::quiet(world.alloc, Some(as_number(count > 0)), Change::Nothing))
}

/// A listener ends; the network isn't told. `NotFound` also where it was left to itself.
pub fn decide_undeclare_listener(world: &SessionTables, id: u32) -> Result<Decision, AllocError>
    ensures { IfOk result (λ made. made ≡ open_decision world.now (Event.Undeclare EntityKind.Listener id)) }
{
    if !names_listener(world, id) {
        return Ok(Decision::refused(world.alloc, Refusal::NotFound));
    }
    let change = Change::OfEntities(EntityChange::End {
        kind: EntityKind::Listener,
        id,
    });
    Ok(Decision::of(Effects::new(world.alloc), change))
}

/// The network tells a subscriber, in place of one of its number: listeners may match it from now on.
pub fn decide_remote_subscriber(
    world: &SessionTables,
    id: u32,
    wire: &WireExpr,
) -> Result<Decision, AllocError>
    ensures { IfOk result (λ made. made ≡ open_decision world.now (Event.Net (Message.DeclareSubscriber id wire.now))) }
{
    let key = match resolve_wire(world, wire)? {
        Ok(key) => key,
        Err(refusal) => return Ok(Decision::refused(world.alloc, refusal)),
    };
    let key = into_owned(world.alloc, key)?;
    let row = RemoteSubscriber { number: id, key };
    let change = Change::OfMatching(MatchingChange::TellSub { row });
    Ok(Decision::quiet(world.alloc, None, change))
}

/// The network tells a queryable, in place of one of its number: listeners may match it from now on.
pub fn decide_remote_queryable(
    world: &SessionTables,
    id: u32,
    complete: bool,
    wire: &WireExpr,
) -> Result<Decision, AllocError>
    ensures { IfOk result (λ made. made ≡ open_decision world.now (Event.Net (Message.DeclareQueryable id complete wire.now))) }
{
    let key = match resolve_wire(world, wire)? {
        Ok(key) => key,
        Err(refusal) => return Ok(Decision::refused(world.alloc, refusal)),
    };
    let key = into_owned(world.alloc, key)?;
    let row = RemoteQueryable {
        number: id,
        complete,
        key,
    };
    let change = Change::OfMatching(MatchingChange::TellQueryable { row });
    Ok(Decision::quiet(world.alloc, None, change))
}

/// The network ends a subscriber. `Ignored` where it told none of that number.
pub fn decide_ended_sub(world: &SessionTables, id: u32) -> Result<Decision, AllocError>
    ensures { IfOk result (λ made. made ≡ open_decision world.now (Event.Net (Message.UndeclareSubscriber id))) }
{
    if !world.matching.remote_entities().has_sub(id) {
        return Ok(Decision::refused(world.alloc, Refusal::Ignored));
    }
    let change = Change::OfMatching(MatchingChange::ForgetSub { number: id });
    Ok(Decision::quiet(world.alloc, None, change))
}

/// The network ends a queryable. `Ignored` where it told none of that number.
pub fn decide_ended_queryable(world: &SessionTables, id: u32) -> Result<Decision, AllocError>
    ensures { IfOk result (λ made. made ≡ open_decision world.now (Event.Net (Message.UndeclareQueryable id))) }
{
    if !world.matching.remote_entities().has_queryable(id) {
        return Ok(Decision::refused(world.alloc, Refusal::Ignored));
    }
    let change = Change::OfMatching(MatchingChange::ForgetQueryable { number: id });
    Ok(Decision::quiet(world.alloc, None, change))
}

/// A listener of this number to that publisher or querier, if it is live.
fn listening(
    world: &SessionTables,
    number: u32,
    parent: ParentKind,
    id: u32,
) -> Result<Option<ListenerRow>, AllocError>
    ensures { IfOk result (λ row. listed row ≡ listening world.now.entities.pubs world.now.entities.queriers number (parent_kind_of parent) id) }
{
    match parent {
        ParentKind::Pub => match live_publisher(world, id) {
            Some(row) => on_pub(world.alloc, number, row),
            None => Ok(None),
        },
        ParentKind::Querier => match live_querier(world, id) {
            Some(row) => on_querier(world.alloc, number, row),
            None => Ok(None),
        },
    }
}

/// Whether a listener of that number can be named.
pub fn names_listener(world: &SessionTables, id: u32) -> bool
    ensures { result ≡ (is_listener id world.now.matching.listeners && not (list_any (λ other. other == id) world.now.matching.left)) }
{
    world.matching.listeners().has(id) && !world.matching.left().contains(id)
}
