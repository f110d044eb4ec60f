//! Query values: what requests draw, and what gives them back.

ghost use Rattle.std.specs.Prelude.{◌≡◌, ◌++◌, map, is_some, false, None, IfOk, OnOk};
ghost use Rattle.zs_query.specs.Unfinished.{value_at, values_from, finished_as};
ghost use Rattle.zs_tables.specs.Queryables.{met};
ghost use Rattle.zs_world.specs.Changes.{HasRoom};
ghost use Rattle.zs_model.specs.GetEffects.{hand_query};
ghost use Rattle.zs_world.specs.Decisions.{open_decision, finished_decision};
ghost use Rattle.zs_model.specs.Values.{wants_complete, met_by_request, network_request, lacks_values};
ghost use Rattle.zs_model.specs.ValueEffects.{requested_effects, finish_effects};
ghost use Rattle.zs_query.specs.Types.{Finished};

use std::alloc::AllocError;
use zs_announcing::resolve_wire;
use zs_events::{Effects, Event, Refusal, Shared};
use zs_keys::KeyExpr;
use zs_making::get_effects::final_effects;
use zs_making::values::{hand_query, network_request, wants_complete};
use zs_making::wires::push_send;
use zs_query::{Finished, Finishing, QueryData, RequestRow, Side};
use zs_sample::QueryTarget;
use zs_wire::{Message, Request};
use zs_world::{Change, Decision, Met, SessionTables, ValueChange};

/// A request from the network is handed to the queryables that it meets.
pub(super) fn decide_request(
    world: &SessionTables,
    request: &Request,
) -> Result<Decision, AllocError>
    ensures { IfOk result (λ made. made ≡ open_decision world.now (Event.Net (Message.Request request.now))) }
{
    let key = match resolve_wire(world, &request.wire)? {
        Ok(key) => key,
        Err(refusal) => return Ok(Decision::refused(world.alloc, refusal)),
    };
    let met = met_by_request(world, &key, request)?;
    if lacks_values(world, &met) {
        return Ok(Decision::refused(world.alloc, Refusal::IdsExhausted));
    }
    let row = network_request(world.alloc, key, request)?;
    let effects = requested_effects(world, request.rid, &row, &met)?;
    let change = Change::OfValues(ValueChange::HandOut { row, met });
    Ok(Decision::of(effects, change))
}

/// One more value is drawn for the query of an unfinished one. It is to be given back like that one.
pub(super) fn decide_share(world: &SessionTables, value: u32) -> Result<Decision, AllocError>
    ensures { IfOk result (λ made. made ≡ open_decision world.now (Event.Share value)) }
{
    if !is_unfinished(world, value) {
        return Ok(Decision::refused(world.alloc, Refusal::NotFound));
    }
    let number = world.handing.next();
    if u32::MAX - number < 1 {
        return Ok(Decision::refused(world.alloc, Refusal::IdsExhausted));
    }
    let change = Change::OfValues(ValueChange::ShareOf { value });
    Ok(Decision::quiet(world.alloc, Some(number), change))
}

/// A query value is given back. `NotFound` where nothing is left to give back under that number.
#[tactic(auto, using(crate::proofs::Answered::given_back))]
pub(super) fn decide_finish(world: &SessionTables, value: u32) -> Result<Decision, AllocError>
    ensures { IfOk result (λ made. made ≡ open_decision world.now (Event.Finish value)) }
{
    finish_by(world, value, world.handing.peek_finish(value))
}

/// A value is given back, by what that comes to.
fn finish_by(
    world: &SessionTables,
    value: u32,
    finishing: Finishing<'_>,
) -> Result<Decision, AllocError>
    ensures { IfOk result (λ made. made ≡ finished_decision world.now value (finished_as finishing.entry)) }
{
    match finishing {
        Finishing::Unknown => Ok(Decision::refused(world.alloc, Refusal::NotFound)),
        Finishing::MoreLeft => {
            let change = Change::OfValues(ValueChange::GiveBack { value });
            Ok(Decision::quiet(world.alloc, None, change))
        }
        Finishing::Last(row) => {
            let effects = last_effects(world, row)?;
            let change = Change::OfValues(ValueChange::GiveBack { value });
            Ok(Decision::of(effects, change))
        }
    }
}

/// The last value of a request is this session's final for its get, or sends the final of a request from the network.
fn last_effects(world: &SessionTables, row: &RequestRow) -> Result<Effects, AllocError>
    ensures { IfOk result (λ effects. effects ≡ finish_effects world.now.asking.gets (Finished.Last row.now)) }
{
    if row.local {
        let outcome = world.asking.gets().peek_final(row.rid, Side::Local)?;
        return final_effects(world.alloc, row.rid, outcome);
    }
    let mut effects = Effects::new(world.alloc);
    let last = Message::ResponseFinal { rid: row.rid };
    push_send(world.alloc, &mut effects, last)?;
    Ok(effects)
}

/// Whether a query value is unfinished.
fn is_unfinished(world: &SessionTables, value: u32) -> bool
    ensures { result ≡ is_some (value_at value world.now.handing.values) }
{
    world.handing.find(value).is_some()
}

/// The queryables that a request of this session or of the network meets.
pub(super) fn met(
    world: &SessionTables,
    key: &KeyExpr<'_>,
    local: bool,
    target: QueryTarget,
) -> Result<Met, AllocError>
    ensures { IfOk result (λ ids. ids ≡ met local (wants_complete target) key.now.text world.now.entities.queryables) }
{
    let mut ids = Vec::new(world.alloc);
    let complete = wants_complete(target);
    world.queryables.met_into(key, local, complete, &mut ids)?;
    Ok(Met::from_vec(ids))
}

/// The queryables that a request from the network meets, with the target that it names.
fn met_by_request(
    world: &SessionTables,
    key: &KeyExpr<'_>,
    request: &Request,
) -> Result<Met, AllocError>
    ensures { IfOk result (λ ids. ids ≡ met_by_request world.now.entities.queryables request.now key.now.text) }
{
    met(world, key, false, request.target)
}

/// Whether more values would be drawn than there are numbers left.
pub(super) fn lacks_values(world: &SessionTables, met: &Met) -> bool
    ensures { result ≡ lacks_values world.now.handing.next met.now }
{
    let left = u32::MAX - world.handing.next();
    (left as usize) < met.as_slice().len()
}

/// A request is handed out to those that it meets; where there are none, its final is sent at once.
fn requested_effects(
    world: &SessionTables,
    rid: u32,
    row: &RequestRow,
    met: &Met,
) -> Result<Effects, AllocError>
    requires { HasRoom world.now met.now }
    ensures { IfOk result (λ effects.
        effects ≡ requested_effects rid (values_from world.now.handing.next world.now.handing.handed row.now met.now)) }
{
    let mut effects = Effects::new(world.alloc);
    if met.is_empty() {
        push_send(world.alloc, &mut effects, Message::ResponseFinal { rid })?;
        return Ok(effects);
    }
    hand_queries(world, &mut effects, row, met)?;
    Ok(effects)
}

/// Hands a request out to queryables, each with a value of its own.
pub(super) fn hand_queries(
    world: &SessionTables,
    effects: &mut Effects,
    row: &RequestRow,
    met: &Met,
) -> Result<(), AllocError>
    requires { HasRoom world.now met.now }
    ensures { OnOk result (effects.new
        ≡ effects.old ++ map hand_query (values_from world.now.handing.next world.now.handing.handed row.now met.now)) }
{
    let query = QueryData::of(world.alloc, row)?;
    let query = Shared::new(world.alloc, query)?;
    let mut value = world.handing.next();
    let ids = met.as_slice();
    for queryable in ids {
        effects.push(hand_query(*queryable, value, query.try_clone()?))?;
        value += 1;
    }
    Ok(())
}
