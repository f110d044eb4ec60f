//! The messages by which sessions publish, ask and answer.

ghost use Rattle.std.specs.Prelude.{◌≡◌, IfOk};
ghost use Rattle.zs_message_forms.specs.Messages.{push_of, request_of, response_of, answered_of};

use crate::forms::{MessageForm, PartsForm};
use crate::wires::{body, qos, wire};
use std::alloc::{AllocError, Global};
use zs_forms::{attachment_in, consolidation, target, text_in, told, value};
use zs_wire::{Answered, Message, Push, Request, Response};

/// A publication. There is none where the key or the encoding is no UTF-8.
pub(crate) fn push(
    alloc: Global,
    form: &MessageForm,
    parts: &PartsForm<'_>,
) -> Result<Option<Message>, AllocError>
    ensures { IfOk result (λ found. found ≡ push_of form.now parts.now) }
{
    let Some(wire) = wire(alloc, form, parts)? else {
        return Ok(None);
    };
    let Some(body) = body(alloc, form, parts)? else {
        return Ok(None);
    };
    Ok(Some(Message::Push(Push {
        wire,
        body,
        qos: qos(form),
        reliable: form.reliable,
    })))
}

/// A query. There is none where a number says nothing, or a text of it is no UTF-8.
pub(crate) fn request(
    alloc: Global,
    form: &MessageForm,
    parts: &PartsForm<'_>,
) -> Result<Option<Message>, AllocError>
    ensures { IfOk result (λ found. found ≡ request_of form.now parts.now) }
{
    let Some(target) = target(form.target) else {
        return Ok(None);
    };
    let Some(consolidation) = consolidation(form.consolidation) else {
        return Ok(None);
    };
    let Some(wire) = wire(alloc, form, parts)? else {
        return Ok(None);
    };
    let Some(parameters) = text_in(alloc, parts.parameters)? else {
        return Ok(None);
    };
    let Some(value) = told(alloc, form.has_value, parts.payload, parts.encoding)? else {
        return Ok(None);
    };
    let attachment = attachment_in(alloc, form.has_attachment, parts.attachment)?;
    Ok(Some(Message::Request(Request {
        rid: form.id,
        wire,
        parameters,
        target,
        consolidation,
        timeout: form.timeout,
        value,
        qos: qos(form),
        source: form.source.read(),
        attachment,
    })))
}

/// What a response says, if its encoding is UTF-8.
fn answered(
    alloc: Global,
    form: &MessageForm,
    parts: &PartsForm<'_>,
) -> Result<Option<Answered>, AllocError>
    ensures { IfOk result (λ found. found ≡ answered_of form.now parts.now) }
{
    if form.is_error {
        let Some(value) = value(alloc, parts.payload, parts.encoding)? else {
            return Ok(None);
        };
        return Ok(Some(Answered::Err(value)));
    }
    let Some(body) = body(alloc, form, parts)? else {
        return Ok(None);
    };
    Ok(Some(Answered::Reply(body)))
}

/// A response to the query of that number. There is none where the key or the encoding is no UTF-8.
pub(crate) fn response(
    alloc: Global,
    form: &MessageForm,
    parts: &PartsForm<'_>,
) -> Result<Option<Message>, AllocError>
    ensures { IfOk result (λ found. found ≡ response_of form.now parts.now) }
{
    let Some(wire) = wire(alloc, form, parts)? else {
        return Ok(None);
    };
    let Some(answered) = answered(alloc, form, parts)? else {
        return Ok(None);
    };
    Ok(Some(Message::Response(Response {
        rid: form.id,
        wire,
        answered,
        qos: qos(form),
        responder: form.responder.read(),
    })))
}
