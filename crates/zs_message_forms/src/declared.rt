//! The messages by which sessions declare.

ghost use Rattle.std.specs.Prelude.{◌≡◌, IfOk};
ghost use Rattle.zs_message_forms.specs.Messages.{key_of, subscriber_of, queryable_of, token_of, ended_token_of, mode_of, what_of, asked_of};

use crate::forms::{MessageForm, PartsForm};
use crate::wires::{interest, named, wire};
use std::alloc::{AllocError, Global};
use zs_wire::{InterestMode, InterestWhat, Message};

/// The declaration of a key under a number, if its text is UTF-8.
pub(crate) fn key(
    alloc: Global,
    form: &MessageForm,
    parts: &PartsForm<'_>,
) -> Result<Option<Message>, AllocError>
    ensures { IfOk result (λ found. found ≡ key_of form.now parts.now) }
{
    let Some(wire) = wire(alloc, form, parts)? else {
        return Ok(None);
    };
    Ok(Some(Message::DeclareKeyExpr {
        number: form.key_number,
        wire,
    }))
}

/// The declaration of a subscriber, if the text of its key is UTF-8.
pub(crate) fn subscriber(
    alloc: Global,
    form: &MessageForm,
    parts: &PartsForm<'_>,
) -> Result<Option<Message>, AllocError>
    ensures { IfOk result (λ found. found ≡ subscriber_of form.now parts.now) }
{
    let Some(wire) = wire(alloc, form, parts)? else {
        return Ok(None);
    };
    Ok(Some(Message::DeclareSubscriber { id: form.id, wire }))
}

/// The declaration of a queryable, if the text of its key is UTF-8.
pub(crate) fn queryable(
    alloc: Global,
    form: &MessageForm,
    parts: &PartsForm<'_>,
) -> Result<Option<Message>, AllocError>
    ensures { IfOk result (λ found. found ≡ queryable_of form.now parts.now) }
{
    let Some(wire) = wire(alloc, form, parts)? else {
        return Ok(None);
    };
    Ok(Some(Message::DeclareQueryable {
        id: form.id,
        complete: form.complete,
        wire,
    }))
}

/// The declaration of a liveliness token, with the interest that it answers. There is none where its key is no UTF-8.
pub(crate) fn token(
    alloc: Global,
    form: &MessageForm,
    parts: &PartsForm<'_>,
) -> Result<Option<Message>, AllocError>
    ensures { IfOk result (λ found. found ≡ token_of form.now parts.now) }
{
    let Some(wire) = wire(alloc, form, parts)? else {
        return Ok(None);
    };
    Ok(Some(Message::DeclareToken {
        id: form.id,
        wire,
        interest: interest(form),
    }))
}

/// The end of a liveliness token, which needn't name a key. There is none where it names one that is no UTF-8.
pub(crate) fn ended_token(
    alloc: Global,
    form: &MessageForm,
    parts: &PartsForm<'_>,
) -> Result<Option<Message>, AllocError>
    ensures { IfOk result (λ found. found ≡ ended_token_of form.now parts.now) }
{
    let Some(wire) = named(alloc, form, parts)? else {
        return Ok(None);
    };
    Ok(Some(Message::UndeclareToken {
        id: form.id,
        wire,
        interest: interest(form),
    }))
}

/// Which declarations an interest asks for, by the number of its form; a number above 3 says nothing.
fn mode(number: u8) -> Option<InterestMode>
    ensures { result ≡ mode_of number }
{
    match number {
        0 => Some(InterestMode::Current),
        1 => Some(InterestMode::Future),
        2 => Some(InterestMode::CurrentFuture),
        3 => Some(InterestMode::Final),
        _ => None,
    }
}

/// What an interest asks for, by the number of its form; a number above 3 says nothing.
fn what(number: u8) -> Option<InterestWhat>
    ensures { result ≡ what_of number }
{
    match number {
        0 => Some(InterestWhat::Subscribers),
        1 => Some(InterestWhat::Queryables),
        2 => Some(InterestWhat::Tokens),
        3 => Some(InterestWhat::Nothing),
        _ => None,
    }
}

/// An interest, which needn't name a key. There is none where a number says nothing, or the key is no UTF-8.
pub(crate) fn asked(
    alloc: Global,
    form: &MessageForm,
    parts: &PartsForm<'_>,
) -> Result<Option<Message>, AllocError>
    ensures { IfOk result (λ found. found ≡ asked_of form.now parts.now) }
{
    let Some(mode) = mode(form.mode) else {
        return Ok(None);
    };
    let Some(what) = what(form.what) else {
        return Ok(None);
    };
    let Some(wire) = named(alloc, form, parts)? else {
        return Ok(None);
    };
    Ok(Some(Message::Interest {
        id: form.id,
        mode,
        what,
        wire,
    }))
}
