//! Which gates an event opens and ends.
ghost use Rattle.std.specs.Prelude.{◌≡◌, ◌++◌, option_map, IfOk, OnOk};
ghost use Rattle.std.specs.Option.{option_to_list};
ghost use Rattle.zs_events.specs.Kinds.{row_of};
ghost use Rattle.zs_turns.specs.Gates.{parent_opened, opened_key, parent_key, token_key, parent_ended, gate_ended, effect_ends, ends_of, opened_at, ends_at};

use std::alloc::{AllocError, Global};
use zs_events::{Answer, Effect, EntityKind, Event, Kind, ParentKind, Turn};
use zs_posts::{Key, Name};

/// The gate of a publisher, a querier or a cancellation token that the event opens under the number that it draws.
fn parent_opened(event: &Event, number: u32) -> Option<Key>
    ensures { result ≡ parent_opened (row_of event.now).to_entities (row_of event.now).draws number }
{
    match event {
        Event::Pub { .. } => Some(Key::Of(Kind::Publisher, number)),
        Event::Querier { .. } => Some(Key::Of(Kind::Querier, number)),
        Event::CancelToken => Some(Key::CancelToken(number)),
        _ => None,
    }
}

/// The gate that the event opens by its answer.
fn opened_key(came: bool, event: &Event, answer: Answer) -> Option<Key>
    ensures { result ≡ opened_key came (row_of event.now) answer }
{
    let Answer::Ok(Some(number)) = answer else {
        return None;
    };
    match event.handled() {
        Some(kind) => {
            if came {
                Some(Key::Of(kind, number))
            } else {
                None
            }
        }
        None => parent_opened(event, number),
    }
}

/// The gate of the publisher or querier behind which the event's handler stands.
fn parent_key(event: &Event) -> Option<Key>
    ensures { result ≡ parent_key (row_of event.now).handled (row_of event.now).names }
{
    match event {
        Event::Listen {
            parent: ParentKind::Pub,
            id,
        } => Some(Key::Of(Kind::Publisher, *id)),
        Event::Listen {
            parent: ParentKind::Querier,
            id,
        } => Some(Key::Of(Kind::Querier, *id)),
        Event::QuerierGet { id, .. } => Some(Key::Of(Kind::Querier, *id)),
        _ => None,
    }
}

/// The gate of a cancellation token.
fn key_of_token(token: Option<u32>) -> Option<Key>
    ensures { result ≡ option_map (λ n. Key.CancelToken n) token }
{
    match token {
        Some(token) => Some(Key::CancelToken(token)),
        None => None,
    }
}

/// The gate of the cancellation token with which the event asks.
fn token_key(event: &Event) -> Option<Key>
    ensures { result ≡ token_key (row_of event.now) }
{
    match event {
        Event::Get { inquiry, .. } => key_of_token(inquiry.get().cancellation_token),
        Event::QuerierGet { inquiry, .. } => key_of_token(inquiry.get().cancellation_token),
        Event::LivelinessGet {
            cancellation_token,
            ..
        } => key_of_token(*cancellation_token),
        _ => None,
    }
}

/// The name of the gate that the event opens by its answer, if it opens one: that of its handler, if it came with one, or
/// that of a publisher, a querier or a cancellation token.
#[tactic(auto, unfolding(crate::specs::Gates::opened_at))]
pub fn opened_name(came: bool, event: &Event, place: u64, answer: Answer) -> Option<Name>
    ensures { result ≡ opened_at came event.now place answer }
{
    match opened_key(came, event, answer) {
        Some(key) => Some(Name {
            key,
            parent: parent_key(event),
            token: token_key(event),
            place,
        }),
        None => None,
    }
}

/// The gate of a publisher, a querier or a cancellation token that the event ends.
fn parent_ended(event: &Event) -> Option<Key>
    ensures { result ≡ parent_ended (row_of event.now).to_entities (row_of event.now).to_gets }
{
    match event {
        Event::Undeclare {
            kind: EntityKind::Pub,
            id,
        } => Some(Key::Of(Kind::Publisher, *id)),
        Event::Undeclare {
            kind: EntityKind::Querier,
            id,
        } => Some(Key::Of(Kind::Querier, *id)),
        Event::Cancel {
            cancellation_token: token,
        } => Some(Key::CancelToken(*token)),
        _ => None,
    }
}

/// The gate that an accepted undeclaration or cancel ends, where no handler is behind it.
fn gate_ended(event: &Event, answer: Answer) -> Option<Key>
    ensures { result ≡ gate_ended (row_of event.now) answer }
{
    match answer {
        Answer::Ok(_) => parent_ended(event),
        Answer::Refused(_) => None,
    }
}

/// Adds the key, if there is one.
fn add_key(key: Option<Key>, all: &mut Vec<Key>) -> Result<(), AllocError>
    ensures { OnOk result (all.new.items ≡ all.old.items ++ option_to_list key) }
{
    match key {
        Some(key) => {
            all.push(key)?;
            Ok(())
        }
        None => Ok(()),
    }
}

/// Adds the gate of the handler that the effect ends, if it ends one.
fn add_ended(effect: &Effect, all: &mut Vec<Key>) -> Result<(), AllocError>
    ensures { OnOk result (all.new.items ≡ all.old.items ++ effect_ends effect.now) }
{
    match effect {
        Effect::End { kind, id } => {
            all.push(Key::Of(*kind, *id))?;
            Ok(())
        }
        _ => Ok(()),
    }
}

/// The gates of the handlers that the effects end, in order.
fn ends_of(alloc: Global, effects: &[Effect]) -> Result<Vec<Key>, AllocError>
    ensures { IfOk result (λ all. all.items ≡ ends_of effects.now) }
{
    let mut all = Vec::new(alloc);
    for effect in effects {
        add_ended(effect, &mut all)?;
    }
    Ok(all)
}

/// All gates that the event ends, whose turn it is: those of handlers, and that of a publisher, a querier or a
/// cancellation token.
///
/// # Errors
///
/// Want of memory alone.
#[tactic(auto, unfolding(crate::specs::Gates::ends_at))]
pub fn turn_ends(alloc: Global, event: &Event, turn: &Turn) -> Result<Vec<Key>, AllocError>
    ensures { IfOk result (λ all. all.items ≡ ends_at event.now turn.now) }
{
    let mut all = ends_of(alloc, turn.effects.as_slice())?;
    add_key(gate_ended(event, turn.answer), &mut all)?;
    Ok(all)
}
