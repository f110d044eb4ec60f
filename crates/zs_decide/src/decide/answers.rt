//! Answers to query values: replies to gets of this session, and responses to requests from the network.

ghost use Rattle.std.specs.Prelude.{◌≡◌, ◌∷◌, [], Some, None, true, IfOk, IsOk};
ghost use Rattle.zs_keys.specs.Key.{undeclared};
ghost use Rattle.zs_events.specs.declared.turn.Effect.{Effect};
ghost use Rattle.zs_wire.specs.declared.message.Message.{Message};
ghost use Rattle.zs_world.specs.Decisions.{known_at, own_keys_at, decision_of, replied_by, answered_by, answer_decision, error_answer_decision};
ghost use Rattle.zs_model.specs.Effects.{answering, key_wire};
ghost use Rattle.zs_world.specs.Changes.{replied_change};
ghost use Rattle.zs_model.specs.Answers.{quality_of, replier_of, is_refused_on};
ghost use Rattle.zs_model.specs.ValueEffects.{error_for_value, error_effects, replied_effects};
ghost use Rattle.zs_world.specs.Keys.{key_of};
ghost use Rattle.zs_model.specs.Questions.{sent_value};
ghost use Rattle.zs_events.specs.Updates.{body_of};

use std::alloc::{AllocError, Global};
use zs_announcing::{declared_by, resolve, wire_form};
use zs_events::{Effects, KeyArg, Refusal, ReplyQuality, Update};
use zs_keys::KeyExpr;
use zs_making::answers::{error_effects, is_refused_on, quality_of, response_by};
use zs_making::content::{plain_body, sent_value};
use zs_making::get_effects::reply_effects;
use zs_making::gets::{error_on, reply_on};
use zs_making::wires::{full_wire, push_send};
use zs_query::{Gets, RequestRow};
use zs_sample::Reply;
use zs_wire::{Answered, Body, EntityGlobalId, Message, Response, Value, WireExpr};
use zs_world::{Change, Decision, GetChange, SessionTables};

/// A reply to a query value, with what the application says of its key.
pub(super) fn decide_reply_to(
    world: &SessionTables,
    value: u32,
    key: &KeyArg,
    update: &Update,
    quality: ReplyQuality,
) -> Result<Decision, AllocError>
    ensures { IfOk result (λ made.
        made ≡ answer_decision world.now value key.now quality (body_of [] update.now)) }
{
    let body = plain_body(world.alloc, update)?;
    decide_answer(world, value, key, body, quality)
}

/// The same with its body.
fn decide_answer(
    world: &SessionTables,
    value: u32,
    key: &KeyArg,
    body: Body,
    quality: ReplyQuality,
) -> Result<Decision, AllocError>
    ensures { IfOk result (λ made.
        made ≡ answer_decision world.now value key.now quality body) }
{
    let Some((row, queryable)) = world.handing.find(value) else {
        return Ok(Decision::refused(world.alloc, Refusal::NotFound));
    };
    answer_by(world, queryable, row, key, body, quality)
}

/// The same once its request and queryable are known.
fn answer_by(
    world: &SessionTables,
    queryable: u32,
    row: &RequestRow,
    key: &KeyArg,
    body: Body,
    quality: ReplyQuality,
) -> Result<Decision, AllocError>
    ensures { IfOk result (λ made.
        made ≡ answered_by world.now key.now queryable row.now quality body (key_of world.now key.now)) }
{
    let resolved = match resolve(world, key)? {
        Ok(key) => key,
        Err(refusal) => return Ok(Decision::refused(world.alloc, refusal)),
    };
    if is_refused_on(&resolved, row) {
        return Ok(Decision::refused(world.alloc, Refusal::ReplyDisjoint));
    }
    reply(world, queryable, row, key, resolved, body, quality)
}

/// What a reply on a key that its query takes brings about and changes.
fn reply(
    world: &SessionTables,
    queryable: u32,
    row: &RequestRow,
    key: &KeyArg,
    resolved: KeyExpr<'_>,
    body: Body,
    quality: ReplyQuality,
) -> Result<Decision, AllocError>
    requires { resolved ≡ undeclared resolved.text }
    ensures { IfOk result (λ made. made ≡ replied_by world.now key.now queryable row.now quality body resolved.entry.text) }
{
    let qos = quality_of(quality, row.qos);
    let replier = replier_of(world, queryable);
    if row.local {
        let reply = reply_on(world.alloc, resolved, qos, Some(replier), body)?;
        return replied(world.alloc, world.asking.gets(), row.rid, reply);
    }
    let wire = own_wire(world, key, resolved.as_str())?;
    let response = response_by(replier, row.rid, wire, qos, Answered::Reply(body));
    send_response(world, response)
}

/// An error for a query value, as the application says it.
pub(super) fn decide_error_to(
    world: &SessionTables,
    value: u32,
    error: &Value,
) -> Result<Decision, AllocError>
    ensures { IfOk result (λ made. made ≡ error_answer_decision world.now value (sent_value error.now)) }
{
    let error = sent_value(world.alloc, error)?;
    decide_error_answer(world, value, error)
}

/// The same as it is sent.
fn decide_error_answer(
    world: &SessionTables,
    value: u32,
    error: Value,
) -> Result<Decision, AllocError>
    ensures { IfOk result (λ made. made ≡ error_answer_decision world.now value error) }
{
    let Some((row, queryable)) = world.handing.find(value) else {
        return Ok(Decision::refused(world.alloc, Refusal::NotFound));
    };
    error_by(world, queryable, row, error)
}

/// The same once its request and queryable are known.
fn error_by(
    world: &SessionTables,
    queryable: u32,
    row: &RequestRow,
    error: Value,
) -> Result<Decision, AllocError>
    ensures { IfOk result (λ made.
        made ≡ decision_of None None (error_for_value (answering (known_at world.now)) queryable row.now error) Change.Nothing) }
{
    let replier = replier_of(world, queryable);
    if row.local {
        let reply = error_on(world.alloc, Some(replier), &error)?;
        let effects = error_effects(world.alloc, world.asking.gets(), row.rid, reply)?;
        return Ok(Decision::of(effects, Change::Nothing));
    }
    let wire = full_wire(world.alloc, row.key.as_str())?;
    let response = response_by(replier, row.rid, wire, row.qos, Answered::Err(error));
    send_response(world, response)
}

/// A response goes to the network, and changes nothing.
fn send_response(world: &SessionTables, response: Response) -> Result<Decision, AllocError>
    ensures { IfOk result (λ made.
        made ≡ decision_of None None (Effect.Send (Message.Response response) ∷ []) Change.Nothing) }
{
    let mut effects = Effects::new(world.alloc);
    push_send(world.alloc, &mut effects, Message::Response(response))?;
    Ok(Decision::of(effects, Change::Nothing))
}

/// A queryable of this session.
fn replier_of(world: &SessionTables, queryable: u32) -> EntityGlobalId
    ensures { result ≡ replier_of world.now.settings.zid queryable }
{
    EntityGlobalId {
        zid: world.settings.zid,
        eid: queryable,
    }
}

/// The form that a message gives an application's key.
fn own_wire(world: &SessionTables, key: &KeyArg, text: &str) -> Result<WireExpr, AllocError>
    ensures { IfOk result (λ wire. wire ≡ key_wire (own_keys_at world.now) text.now key.now) }
{
    let declared = declared_by(world, key, text)?;
    wire_form(world, text, declared)
}

/// What a reply to a get of this session brings about, and changes.
fn replied(alloc: Global, gets: &Gets, rid: u32, reply: Reply) -> Result<Decision, AllocError>
    requires { IsOk reply.result }
    ensures { IfOk result (λ made. made ≡ decision_of None None (replied_effects gets.now rid reply) (replied_change true rid reply)) }
{
    let effects = reply_effects(alloc, gets.peek(rid, &reply), rid, &reply)?;
    let change = Change::OfGets(GetChange::Take { number: rid, reply });
    Ok(Decision::of(effects, change))
}
