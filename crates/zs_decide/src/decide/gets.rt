//! Gets, and what comes in for them.

ghost use Rattle.std.specs.Prelude.{◌≡◌, Some, None, true, IfOk, IsOk};
ghost use Rattle.zs_keys.specs.Text.{is_canonical};
ghost use Rattle.zs_keys.specs.Key.{undeclared};
ghost use Rattle.zs_world.specs.Decisions.{named_wire, open_decision, ask_decision, unmet_decision, met_decision, heard_reply, heard_final, reply_decision_on, reply_decision, error_decision};
ghost use Rattle.zs_model.specs.Gets.{sample_reply, error_reply, is_unmet, is_unwanted};
ghost use Rattle.zs_model.specs.GetEffects.{request_sends, unmet_effects};
ghost use Rattle.zs_model.specs.Values.{met_by_get};
ghost use Rattle.zs_model.specs.Questions.{parameters_of, row_asked, request_of};
ghost use Rattle.zs_making.specs.Spoken.{question_by};
ghost use Rattle.zs_events.specs.declared.chan.Chan.{Chan};
ghost use Rattle.zs_announcing.specs.Named.{named_by};
ghost use Rattle.zs_events.specs.declared.event.Event.{Event};
ghost use Rattle.zs_wire.specs.declared.message.Message.{Message};
ghost use Rattle.zs_world.specs.Changes.{HasRoom};

use super::cancelling::{is_drawn, was_cancelled};
use super::values::{hand_queries, lacks_values, met};
use std::alloc::{AllocError, Global};
use zs_announcing::{KeyName, declaration_of, resolve, resolve_wire, wire_form};
use zs_events::{Effects, Inquiry, KeyArg, QuerySettings, Refusal, Shared};
use zs_keys::KeyExpr;
use zs_making::get_effects::{end_get, ends_effects, final_effects, hand_reply, reply_effects};
use zs_making::gets::{error_reply, is_unmet, is_unwanted, sample_reply};
use zs_making::queriers::key_of;
use zs_making::questions::{
    Question, get_request, parameters_of, question_of, request_of, row_waiting,
};
use zs_making::wires::push_send;
use zs_model::{has_network, has_session, into_owned};
use zs_query::{GetRow, Gets, Side};
use zs_sample::{Parameters, Reply};
use zs_wire::{Answered, Body, Message, Response, Value};
use zs_world::{Change, Decision, GetChange, Met, SessionTables, ValueChange};

/// A get of no querier.
#[tactic(auto, using(crate::proofs::Asking::asked_plainly))]
pub(super) fn decide_get(
    world: &SessionTables,
    key: &KeyArg,
    settings: QuerySettings,
    inquiry: &Inquiry,
) -> Result<Decision, AllocError>
    ensures { IfOk result (λ made. made ≡ open_decision world.now (Event.Get key.now settings inquiry.now Chan.Print)) }
{
    if !is_drawn(world, inquiry.cancellation_token) {
        return Ok(Decision::refused(world.alloc, Refusal::NotFound));
    }
    let question = Question {
        settings,
        inquiry,
        querier: None,
    };
    match resolve(world, key)? {
        Ok(resolved) => ask(world, KeyName::Own(key), resolved, question),
        Err(refusal) => Ok(Decision::refused(world.alloc, refusal)),
    }
}

/// A get of a querier: most of what it asks is what the querier says.
pub(super) fn decide_querier_get(
    world: &SessionTables,
    id: u32,
    inquiry: &Inquiry,
) -> Result<Decision, AllocError>
    ensures { IfOk result (λ made. made ≡ open_decision world.now (Event.QuerierGet id inquiry.now Chan.Print)) }
{
    let Some(row) = world.queriers.get(id) else {
        return Ok(Decision::refused(world.alloc, Refusal::NotFound));
    };
    if !is_drawn(world, inquiry.cancellation_token) {
        return Ok(Decision::refused(world.alloc, Refusal::NotFound));
    }
    ask(
        world,
        KeyName::Querier(id),
        key_of(row),
        question_of(row, inquiry),
    )
}

/// A get on a key, whose cancellation token was drawn, if it has one.
fn ask(
    world: &SessionTables,
    key: KeyName<'_>,
    resolved: KeyExpr<'_>,
    question: Question<'_>,
) -> Result<Decision, AllocError>
    requires plain { resolved ≡ undeclared resolved.text }
    ensures { IfOk result (λ made. made ≡ ask_decision world.now (named_by key.entry) (question_by question.entry) resolved.entry.text) }
{
    if was_cancelled(world, question.inquiry.cancellation_token) {
        return Ok(Decision::refused(world.alloc, Refusal::QueryCancelled));
    }
    let met = met_by_get(world, &resolved, question)?;
    if lacks_values(world, &met) || u32::MAX - world.asking.next() < 1 {
        return Ok(Decision::refused(world.alloc, Refusal::IdsExhausted));
    }
    let parameters = parameters_of(world.alloc, question)?;
    if met.is_empty() {
        return ask_network(world, key, resolved, question, &parameters);
    }
    ask_here(world, key, resolved, question, &parameters, met)
}

/// A get that meets no queryable of this session: the network is asked, or else it ends at once.
fn ask_network(
    world: &SessionTables,
    key: KeyName<'_>,
    resolved: KeyExpr<'_>,
    question: Question<'_>,
    parameters: &Parameters<'_>,
) -> Result<Decision, AllocError>
    requires plain { resolved ≡ undeclared resolved.text }
    requires parameters { parameters.now ≡ parameters_of (question_by question) }
    ensures { IfOk result (λ made. made ≡ unmet_decision world.now (named_by key.entry) (question_by question.entry) resolved.entry.text) }
{
    let number = world.asking.next();
    let effects = unmet_effects(world, key, resolved.as_str(), question, parameters)?;
    let row = waiting_row(world, resolved, question, parameters, false)?;
    let change = Change::OfGets(GetChange::Ask { row });
    Ok(Decision::accepted(Some(number), effects, change))
}

/// One that meets these: each is handed the query.
fn ask_here(
    world: &SessionTables,
    key: KeyName<'_>,
    resolved: KeyExpr<'_>,
    question: Question<'_>,
    parameters: &Parameters<'_>,
    met: Met,
) -> Result<Decision, AllocError>
    requires plain { resolved ≡ undeclared resolved.text }
    requires parameters { parameters.now ≡ parameters_of (question_by question) }
    requires room { HasRoom world.now met }
    ensures { IfOk result (λ made. made ≡ met_decision world.now (named_by key.entry) (question_by question.entry) resolved.entry.text met) }
{
    let number = world.asking.next();
    let row = get_request(world.alloc, number, &resolved, question, parameters)?;
    let mut effects = request_sends(world, key, resolved.as_str(), question, parameters)?;
    hand_queries(world, &mut effects, &row, &met)?;
    let get = waiting_row(world, resolved, question, parameters, true)?;
    let change = Change::OfValues(ValueChange::AskHere { get, row, met });
    Ok(Decision::accepted(Some(number), effects, change))
}

/// The queryables that a get meets: none where this session isn't in its destination.
fn met_by_get(
    world: &SessionTables,
    key: &KeyExpr<'_>,
    question: Question<'_>,
) -> Result<Met, AllocError>
    ensures { IfOk result (λ ids. ids ≡ met_by_get world.now.entities.queryables (question_by question.entry) key.now.text) }
{
    if !has_session(question.settings.destination) {
        return Ok(Met::new(world.alloc));
    }
    met(world, key, true, question.settings.target)
}

/// The row of the next get, which waits for this session too where it meets a queryable.
fn waiting_row(
    world: &SessionTables,
    resolved: KeyExpr<'_>,
    question: Question<'_>,
    parameters: &Parameters<'_>,
    here: bool,
) -> Result<GetRow, AllocError>
    requires plain { resolved ≡ undeclared resolved.text }
    requires parameters { parameters.now ≡ parameters_of (question_by question) }
    ensures { IfOk result (λ row. row ≡ record (row_asked world.now.settings.default_timeout world.now.asking.moment world.now.asking.next resolved.entry.text (question_by question.entry)) { local_wanted = here }) }
{
    let default = world.settings.default_timeout;
    let moment = world.asking.moment();
    let number = world.asking.next();
    let key = into_owned(world.alloc, resolved)?;
    Ok(row_waiting(default, moment, number, key, question, parameters, here))
}

/// A get that the network answers is sent.
fn request_sends(
    world: &SessionTables,
    key: KeyName<'_>,
    text: &str,
    question: Question<'_>,
    parameters: &Parameters<'_>,
) -> Result<Effects, AllocError>
    requires { parameters.now ≡ parameters_of (question_by question) }
    ensures { IfOk result (λ effects. effects
        ≡ request_sends world.now.settings.default_timeout (named_wire world.now text.now (named_by key.entry)) world.now.asking.next (question_by question.entry)) }
{
    let mut effects = Effects::new(world.alloc);
    if !has_network(question.settings.destination) {
        return Ok(effects);
    }
    let request = request(world, key, text, question, parameters)?;
    push_send(world.alloc, &mut effects, request)?;
    Ok(effects)
}

/// One that no queryable of this session answers ends at once, if the network doesn't either.
fn unmet_effects(
    world: &SessionTables,
    key: KeyName<'_>,
    text: &str,
    question: Question<'_>,
    parameters: &Parameters<'_>,
) -> Result<Effects, AllocError>
    requires { parameters.now ≡ parameters_of (question_by question) }
    ensures { IfOk result (λ effects. effects
        ≡ unmet_effects world.now.settings.default_timeout (named_wire world.now text.now (named_by key.entry)) world.now.asking.next (question_by question.entry)) }
{
    let mut effects = Effects::new(world.alloc);
    if !has_network(question.settings.destination) {
        effects.push(end_get(world.asking.next()))?;
        return Ok(effects);
    }
    let request = request(world, key, text, question, parameters)?;
    push_send(world.alloc, &mut effects, request)?;
    Ok(effects)
}

/// The request of the next get.
fn request(
    world: &SessionTables,
    key: KeyName<'_>,
    text: &str,
    question: Question<'_>,
    parameters: &Parameters<'_>,
) -> Result<Message, AllocError>
    requires { parameters.now ≡ parameters_of (question_by question) }
    ensures { IfOk result (λ message. message
        ≡ Message.Request (request_of world.now.settings.default_timeout (named_wire world.now text.now (named_by key.entry)) world.now.asking.next (question_by question.entry))) }
{
    let default = world.settings.default_timeout;
    let number = world.asking.next();
    let declared = declaration_of(world, key, text)?;
    let wire = wire_form(world, text, declared)?;
    let request = request_of(world.alloc, default, wire, number, question, parameters)?;
    Ok(Message::Request(request))
}

/// The moment `now` has come, in milliseconds: the gets whose deadline it reaches end, those of tokens too.
pub(super) fn decide_tick(world: &SessionTables, now: u64) -> Result<Decision, AllocError>
    ensures { IfOk result (λ made. made ≡ open_decision world.now (Event.Tick now)) }
{
    let ends = world.asking.gets().peek_tick(now)?;
    let over = world.liveliness.gets().over_at(world.alloc, now)?;
    let effects = ends_effects(world.alloc, ends, &over)?;
    let change = Change::OfGets(GetChange::Advance { moment: now });
    Ok(Decision::of(effects, change))
}

/// A response to a get: a value of its key, or an error.
pub(super) fn decide_response(
    world: &SessionTables,
    response: &Response,
) -> Result<Decision, AllocError>
    ensures { IfOk result (λ made. made ≡ open_decision world.now (Event.Net (Message.Response response.now))) }
{
    match &response.answered {
        Answered::Reply(body) => decide_reply(world, response, body),
        Answered::Err(value) => decide_error(world, response, value),
    }
}

/// A response with a value of its key.
#[tactic(auto, using(crate::proofs::Replies::settled))]
fn decide_reply(
    world: &SessionTables,
    response: &Response,
    body: &Body,
) -> Result<Decision, AllocError>
    ensures { IfOk result (λ made. made ≡ reply_decision world.now response.now body.now) }
{
    match resolve_wire(world, &response.wire)? {
        Ok(key) => decide_reply_on(world, key, response, body),
        Err(refusal) => Ok(Decision::refused(world.alloc, refusal)),
    }
}

/// The same once its key is known.
#[tactic(auto, using(crate::proofs::Replies::heard))]
fn decide_reply_on(
    world: &SessionTables,
    key: KeyExpr<'_>,
    response: &Response,
    body: &Body,
) -> Result<Decision, AllocError>
    requires plain { key ≡ undeclared key.text }
    requires canonical { is_canonical key.text ≡ true }
    ensures { IfOk result (λ made. made ≡ reply_decision_on world.now response.now body.now (Some key.entry.text)) }
{
    let reply = sample_reply(world.alloc, key, response, body)?;
    hear_reply(world.alloc, world.asking.gets(), response.rid, reply)
}

/// A response with an error.
fn decide_error(
    world: &SessionTables,
    response: &Response,
    value: &Value,
) -> Result<Decision, AllocError>
    ensures { IfOk result (λ made. made ≡ error_decision world.now response.now value.now) }
{
    let number = response.rid;
    if !world.asking.gets().is_open(number) {
        return Ok(Decision::refused(world.alloc, Refusal::Ignored));
    }
    let mut effects = Effects::new(world.alloc);
    let reply = error_reply(world.alloc, response, value)?;
    let reply = Shared::new(world.alloc, reply)?;
    effects.push(hand_reply(number, reply))?;
    Ok(Decision::of(effects, Change::Nothing))
}

/// The network has no more responses to a get. `Ignored` where no get waits for that.
pub(super) fn decide_response_final(world: &SessionTables, rid: u32) -> Result<Decision, AllocError>
    ensures { IfOk result (λ made. made ≡ open_decision world.now (Event.Net (Message.ResponseFinal rid))) }
{
    hear_final(world.alloc, world.asking.gets(), rid)
}

/// What gets make of a reply to one of them.
fn hear_reply(alloc: Global, gets: &Gets, number: u32, reply: Reply) -> Result<Decision, AllocError>
    requires { IsOk reply.result }
    ensures { IfOk result (λ made. made ≡ heard_reply gets.now number reply) }
{
    let peek = gets.peek(number, &reply);
    if is_unmet(peek) {
        return Ok(Decision::refused(alloc, Refusal::Ignored));
    }
    let effects = reply_effects(alloc, peek, number, &reply)?;
    let change = Change::OfGets(GetChange::Take { number, reply });
    Ok(Decision::of(effects, change))
}

/// What gets make of the network's final for one of them.
fn hear_final(alloc: Global, gets: &Gets, number: u32) -> Result<Decision, AllocError>
    ensures { IfOk result (λ made. made ≡ heard_final gets.now number) }
{
    let outcome = gets.peek_final(number, Side::Network)?;
    if is_unwanted(&outcome) {
        return Ok(Decision::refused(alloc, Refusal::Ignored));
    }
    let effects = final_effects(alloc, number, outcome)?;
    let change = Change::OfGets(GetChange::Final { number });
    Ok(Decision::of(effects, change))
}
