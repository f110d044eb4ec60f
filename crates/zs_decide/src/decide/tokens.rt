//! Tokens that the network tells and ends, for those who want to know of them.

ghost use Rattle.std.specs.Prelude.{◌≡◌, ◌==◌, [], Some, None, IfOk};
ghost use Rattle.std.specs.List.{find};
ghost use Rattle.zs_keys.specs.Key.{undeclared};
ghost use Rattle.zs_world.specs.Decisions.{watch_at, open_decision, decision_of, remote_token_decision, ended_decision, ended_on};
ghost use Rattle.zs_model.specs.Tokens.{answers};
ghost use Rattle.zs_model.specs.LivelinessEffects.{token_sample, end_asking, token_hands, declared_hands};

use std::alloc::AllocError;
use zs_announcing::resolve_wire;
use zs_events::{Effects, Event, Refusal, Shared};
use zs_keys::KeyExpr;
use zs_making::keys::is_blank;
use zs_making::tokens::{answer, end_asking, hand_copies, token_sample};
use zs_model::into_owned;
use zs_sample::SampleKind;
use zs_tables::RemoteToken;
use zs_wire::{Message, WireExpr};
use zs_world::{Change, Decision, LivelinessChange, SessionTables};

/// A token that the network tells.
pub(super) fn decide_remote_token(
    world: &SessionTables,
    id: u32,
    wire: &WireExpr,
    interest: Option<u32>,
) -> Result<Decision, AllocError>
    ensures { IfOk result (λ made. made ≡ open_decision world.now (Event.Net (Message.DeclareToken id wire.now interest))) }
{
    match resolve_wire(world, wire)? {
        Ok(key) => hear_token(world, id, key, interest),
        Err(refusal) => Ok(Decision::refused(world.alloc, refusal)),
    }
}

/// It answers a get, or else it is recorded and handed on, unless its number is known.
fn hear_token(
    world: &SessionTables,
    id: u32,
    key: KeyExpr<'_>,
    interest: Option<u32>,
) -> Result<Decision, AllocError>
    requires { key ≡ undeclared key.text }
    ensures { IfOk result (λ made. made ≡ remote_token_decision world.now id interest key.entry.text) }
{
    if answers_get(world, interest) {
        let effects = answer(world.alloc, interest, key)?;
        return Ok(Decision::of(effects, Change::Nothing));
    }
    let effects = hand_declared(world, id, interest, &key)?;
    let key = into_owned(world.alloc, key)?;
    let token = RemoteToken { number: id, key };
    let change = Change::OfLiveliness(LivelinessChange::RecordToken { token });
    Ok(Decision::of(effects, change))
}

/// Whether an interest is that of an open get of tokens.
fn answers_get(world: &SessionTables, interest: Option<u32>) -> bool
    ensures { result ≡ answers interest world.now.liveliness.gets }
{
    match interest {
        Some(number) => world.liveliness.gets().is_open(number),
        None => false,
    }
}

/// A told token is for the subscribers that hear of it, unless its number is known.
fn hand_declared(
    world: &SessionTables,
    id: u32,
    interest: Option<u32>,
    key: &KeyExpr<'_>,
) -> Result<Effects, AllocError>
    ensures { IfOk result (λ effects. effects ≡ declared_hands (watch_at world.now) id interest (Some key.now.text)) }
{
    if world.liveliness.remote_tokens().has(id) {
        return Ok(Effects::new(world.alloc));
    }
    hand_token(world, SampleKind::Put, interest.is_some(), key)
}

/// A token that the network ends.
pub(super) fn decide_ended_token(
    world: &SessionTables,
    id: u32,
    wire: &Option<WireExpr>,
    interest: Option<u32>,
) -> Result<Decision, AllocError>
    ensures { IfOk result (λ made. made ≡ open_decision world.now (Event.Net (Message.UndeclareToken id wire.now interest))) }
{
    if let Some(token) = world.liveliness.remote_tokens().find(id) {
        return end_token(world, id, &token.key, interest);
    }
    match wire {
        Some(wire) => decide_ended_by(world, id, wire, interest),
        None => Ok(forget_token(world, id)),
    }
}

/// A token of an unknown number ends, on a key that is named, unless that is blank.
fn decide_ended_by(
    world: &SessionTables,
    id: u32,
    wire: &WireExpr,
    interest: Option<u32>,
) -> Result<Decision, AllocError>
    requires { find (λ token. token.number == id) world.now.liveliness.remote_tokens ≡ None }
    ensures { IfOk result (λ made. made ≡ open_decision world.now (Event.Net (Message.UndeclareToken id (Some wire.now) interest))) }
{
    if is_blank(wire) {
        return Ok(forget_token(world, id));
    }
    decide_ended_on(world, id, wire, interest)
}

/// A token of an unknown number ends, and nobody knows on which key.
fn forget_token(world: &SessionTables, id: u32) -> Decision
    ensures { result ≡ decision_of None None [] (Change.OfLiveliness (LivelinessChange.ForgetToken id)) }
{
    let change = Change::OfLiveliness(LivelinessChange::ForgetToken { number: id });
    Decision::of(Effects::new(world.alloc), change)
}

/// A token of an unknown number ends, on a key that is named.
fn decide_ended_on(
    world: &SessionTables,
    id: u32,
    wire: &WireExpr,
    interest: Option<u32>,
) -> Result<Decision, AllocError>
    ensures { IfOk result (λ made. made ≡ ended_on world.now id wire.now interest) }
{
    match resolve_wire(world, wire)? {
        Ok(key) => end_token(world, id, &key, interest),
        Err(refusal) => Ok(Decision::refused(world.alloc, refusal)),
    }
}

/// That a token ends is for the subscribers that hear of it, and it is forgotten.
fn end_token(
    world: &SessionTables,
    id: u32,
    key: &KeyExpr<'_>,
    interest: Option<u32>,
) -> Result<Decision, AllocError>
    ensures { IfOk result (λ made. made ≡ ended_decision world.now id interest (Some key.now.text)) }
{
    let effects = hand_token(world, SampleKind::Delete, interest.is_some(), key)?;
    let change = Change::OfLiveliness(LivelinessChange::ForgetToken { number: id });
    Ok(Decision::of(effects, change))
}

/// A token is handed to all subscribers that hear of it. `before` says that it was there before.
fn hand_token(
    world: &SessionTables,
    kind: SampleKind,
    before: bool,
    key: &KeyExpr<'_>,
) -> Result<Effects, AllocError>
    ensures { IfOk result (λ effects. effects ≡ token_hands kind before (Some key.now.text) world.now.liveliness.subs) }
{
    let mut ids = Vec::new(world.alloc);
    world.liveliness.subs().hearers_into(key, before, &mut ids)?;
    let mut effects = Effects::new(world.alloc);
    if ids.is_empty() {
        return Ok(effects);
    }
    let sample = token_sample(world.alloc, kind, key.as_keyexpr())?;
    let sample = Shared::new(world.alloc, sample)?;
    hand_copies(&sample, &ids, &mut effects)?;
    Ok(effects)
}

/// A get of tokens has had all.
pub(super) fn decide_answered(
    world: &SessionTables,
    interest: Option<u32>,
) -> Result<Decision, AllocError>
    ensures { IfOk result (λ made. made ≡ open_decision world.now (Event.Net (Message.DeclareFinal interest))) }
{
    let Some(number) = interest else {
        return Ok(Decision::refused(world.alloc, Refusal::Ignored));
    };
    let mut effects = Effects::new(world.alloc);
    if world.liveliness.gets().is_open(number) {
        effects.push(end_asking(number))?;
    }
    let change = Change::OfLiveliness(LivelinessChange::EndAsking { number });
    Ok(Decision::of(effects, change))
}
