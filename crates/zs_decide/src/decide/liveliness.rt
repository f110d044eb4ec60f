//! Liveliness: tokens, the subscribers to them and the gets of them, as the application declares and asks.

ghost use Rattle.std.specs.Prelude.{◌≡◌, ◌∷◌, [], Some, None, IfOk};
ghost use Rattle.zs_events.specs.declared.chan.Chan.{Chan};
ghost use Rattle.zs_world.specs.Decisions.{own_keys_at, open_decision};
ghost use Rattle.zs_model.specs.Effects.{key_wire, lsub_mode, token_interest};
ghost use Rattle.zs_model.specs.LivelinessEffects.{history_hands};
ghost use Rattle.zs_events.specs.declared.turn.Effect.{Effect};

use super::cancelling::{is_drawn, was_cancelled};
use std::alloc::AllocError;
use zs_announcing::{declared_by, names_lsub, resolve, wire_form};
use zs_events::{Effect, Effects, EntityKind, Event, KeyArg, Kind, Refusal};
use zs_keys::KeyExpr;
use zs_making::liveliness::{hand_keys, lsub_mode};
use zs_making::wires::push_send;
use zs_model::into_owned;
use zs_tables::{LivelinessGet, LivelinessSub};
use zs_wire::{InterestMode, InterestWhat, Message, WireExpr};
use zs_world::{Change, Decision, EntityChange, EntityRow, LivelinessChange, SessionTables};

/// A liveliness token is declared, and the network is told of it under the number that it draws.
pub(super) fn decide_token(world: &SessionTables, key: &KeyArg) -> Result<Decision, AllocError>
    ensures { IfOk result (λ made. made ≡ open_decision world.now (Event.Token key.now)) }
{
    let resolved = match resolve(world, key)? {
        Ok(key) => key,
        Err(refusal) => return Ok(Decision::refused(world.alloc, refusal)),
    };
    if u32::MAX - world.next_entity < 1 {
        return Ok(Decision::refused(world.alloc, Refusal::IdsExhausted));
    }
    let id = world.next_entity;
    let wire = key_wire(world, key, resolved.as_str())?;
    let mut effects = Effects::new(world.alloc);
    let declaration = Message::DeclareToken {
        id,
        wire,
        interest: None,
    };
    push_send(world.alloc, &mut effects, declaration)?;
    let change = Change::OfEntities(EntityChange::Add(EntityRow::Token(id)));
    Ok(Decision::accepted(Some(id), effects, change))
}

/// A liveliness token ends, and the network is told. `NotFound` where this session has none of that number.
pub(super) fn decide_undeclare_token(world: &SessionTables, id: u32) -> Result<Decision, AllocError>
    ensures { IfOk result (λ made. made ≡ open_decision world.now (Event.Undeclare EntityKind.Token id)) }
{
    if !world.liveliness.has_token(id) {
        return Ok(Decision::refused(world.alloc, Refusal::NotFound));
    }
    let mut effects = Effects::new(world.alloc);
    let end = Message::UndeclareToken {
        id,
        wire: None,
        interest: None,
    };
    push_send(world.alloc, &mut effects, end)?;
    let change = Change::OfEntities(EntityChange::End {
        kind: EntityKind::Token,
        id,
    });
    Ok(Decision::of(effects, change))
}

/// A subscriber to liveliness is declared, and the network is asked of tokens under the number that it draws.
pub(super) fn decide_lsub(
    world: &SessionTables,
    history: bool,
    key: &KeyArg,
) -> Result<Decision, AllocError>
    ensures { IfOk result (λ made. made ≡ open_decision world.now (Event.Lsub history key.now)) }
{
    let resolved = match resolve(world, key)? {
        Ok(key) => key,
        Err(refusal) => return Ok(Decision::refused(world.alloc, refusal)),
    };
    if u32::MAX - world.next_entity < 1 {
        return Ok(Decision::refused(world.alloc, Refusal::IdsExhausted));
    }
    let id = world.next_entity;
    let effects = lsub_effects(world, id, history, key, &resolved)?;
    let row = LivelinessSub {
        id,
        history,
        key: into_owned(world.alloc, resolved)?,
    };
    let change = Change::OfEntities(EntityChange::Add(EntityRow::Lsub(row)));
    Ok(Decision::accepted(Some(id), effects, change))
}

/// A subscriber to liveliness ends: a final interest takes its question to the network back. `NotFound` also where it
/// was left to itself.
pub(super) fn decide_undeclare_lsub(world: &SessionTables, id: u32) -> Result<Decision, AllocError>
    ensures { IfOk result (λ made. made ≡ open_decision world.now (Event.Undeclare EntityKind.Lsub id)) }
{
    if !names_lsub(world, id) {
        return Ok(Decision::refused(world.alloc, Refusal::NotFound));
    }
    let mut effects = Effects::new(world.alloc);
    let end = Message::Interest {
        id,
        mode: InterestMode::Final,
        what: InterestWhat::Tokens,
        wire: None,
    };
    push_send(world.alloc, &mut effects, end)?;
    effects.push(Effect::End {
        kind: Kind::LivelinessSubscriber,
        id,
    })?;
    let change = Change::OfEntities(EntityChange::End {
        kind: EntityKind::Lsub,
        id,
    });
    Ok(Decision::of(effects, change))
}

/// The tokens that live on a key are asked for, under an entity number. The timeout is in milliseconds from the last
/// moment; without one the session's default holds.
pub(super) fn decide_liveliness_get(
    world: &SessionTables,
    key: &KeyArg,
    timeout: Option<u64>,
    token: Option<u32>,
) -> Result<Decision, AllocError>
    ensures { IfOk result (λ made. made ≡ open_decision world.now (Event.LivelinessGet key.now timeout token Chan.Print)) }
{
    if !is_drawn(world, token) {
        return Ok(Decision::refused(world.alloc, Refusal::NotFound));
    }
    let resolved = match resolve(world, key)? {
        Ok(key) => key,
        Err(refusal) => return Ok(Decision::refused(world.alloc, refusal)),
    };
    if was_cancelled(world, token) {
        return Ok(Decision::refused(world.alloc, Refusal::QueryCancelled));
    }
    if u32::MAX - world.next_entity < 1 {
        return Ok(Decision::refused(world.alloc, Refusal::IdsExhausted));
    }
    let number = world.next_entity;
    let effects = ask_of_tokens(world, number, InterestMode::Current, key, &resolved)?;
    let timeout = timeout.unwrap_or(world.settings.default_timeout);
    let row = LivelinessGet {
        number,
        key: into_owned(world.alloc, resolved)?,
        cancellation_token: token,
        deadline: world.asking.moment().saturating_add(timeout),
    };
    let change = Change::OfLiveliness(LivelinessChange::AskTokens { row });
    Ok(Decision::accepted(Some(number), effects, change))
}

/// The network is asked of tokens on that key.
fn ask_of_tokens(
    world: &SessionTables,
    id: u32,
    mode: InterestMode,
    key: &KeyArg,
    resolved: &KeyExpr<'_>,
) -> Result<Effects, AllocError>
    ensures { IfOk result (λ effects. effects
        ≡ Effect.Send (token_interest mode id (key_wire (own_keys_at world.now) resolved.now.text key.now)) ∷ []) }
{
    let wire = key_wire(world, key, resolved.as_str())?;
    let mut effects = Effects::new(world.alloc);
    let interest = Message::Interest {
        id,
        mode,
        what: InterestWhat::Tokens,
        wire: Some(wire),
    };
    push_send(world.alloc, &mut effects, interest)?;
    Ok(effects)
}

/// A new subscriber asks the network of tokens, and is handed the told ones that its key meets, if it wants them.
fn lsub_effects(
    world: &SessionTables,
    id: u32,
    history: bool,
    key: &KeyArg,
    resolved: &KeyExpr<'_>,
) -> Result<Effects, AllocError>
    ensures { IfOk result (λ effects. effects
        ≡ Effect.Send (token_interest (lsub_mode history) id (key_wire (own_keys_at world.now) resolved.now.text key.now))
        ∷ history_hands history (Some id) (Some resolved.now.text) world.now.liveliness.remote_tokens) }
{
    let mut effects = ask_of_tokens(world, id, lsub_mode(history), key, resolved)?;
    if !history {
        return Ok(effects);
    }
    let keys = world.liveliness.remote_tokens().met_keys(resolved)?;
    hand_keys(world.alloc, id, keys, &mut effects)?;
    Ok(effects)
}

/// The form that a message gives an application's key which stands for that text.
fn key_wire(world: &SessionTables, key: &KeyArg, text: &str) -> Result<WireExpr, AllocError>
    ensures { IfOk result (λ wire. wire ≡ key_wire (own_keys_at world.now) text.now key.now) }
{
    let declared = declared_by(world, key, text)?;
    wire_form(world, text, declared)
}
