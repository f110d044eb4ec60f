//! The parts that several messages have.

ghost use Rattle.std.specs.Prelude.{◌≡◌, IfOk};
ghost use Rattle.zs_message_forms.specs.Parts.{mapping_of, wire_of, named_of, interest_of, kind_of, message_qos, body_of};

use crate::forms::{MessageForm, PartsForm};
use std::alloc::{AllocError, Global};
use zs_bytes::ZBytes;
use zs_forms::{attachment_in, congestion, text_in};
use zs_wire::{Body, Mapping, QoSType, SampleKind, WireExpr};

/// The key, if its text is UTF-8.
pub(crate) fn wire(
    alloc: Global,
    form: &MessageForm,
    parts: &PartsForm<'_>,
) -> Result<Option<WireExpr>, AllocError>
    ensures { IfOk result (λ found. found ≡ wire_of form.now parts.now) }
{
    let Some(suffix) = text_in(alloc, parts.key)? else {
        return Ok(None);
    };
    Ok(Some(WireExpr {
        scope: form.scope,
        suffix,
        mapping: mapping(form.by_receiver),
    }))
}

/// Who declared the number that a key begins with.
fn mapping(by_receiver: bool) -> Mapping
    ensures { result ≡ mapping_of by_receiver }
{
    if by_receiver {
        Mapping::Receiver
    } else {
        Mapping::Sender
    }
}

/// The key that it names, if it names one. There is no answer where its text is no UTF-8.
pub(crate) fn named(
    alloc: Global,
    form: &MessageForm,
    parts: &PartsForm<'_>,
) -> Result<Option<Option<WireExpr>>, AllocError>
    ensures { IfOk result (λ found. found ≡ named_of form.now parts.now) }
{
    if !form.has_key {
        return Ok(Some(None));
    }
    let Some(wire) = wire(alloc, form, parts)? else {
        return Ok(None);
    };
    Ok(Some(Some(wire)))
}

/// The interest that it names, if it names one.
pub(crate) fn interest(form: &MessageForm) -> Option<u32>
    ensures { result ≡ interest_of form.now }
{
    if form.has_interest {
        Some(form.interest)
    } else {
        None
    }
}

/// Whether it is a deletion or a put.
fn sample_kind(deletes: bool) -> SampleKind
    ensures { result ≡ kind_of deletes }
{
    if deletes {
        SampleKind::Delete
    } else {
        SampleKind::Put
    }
}

/// Its quality of service.
pub(crate) fn qos(form: &MessageForm) -> QoSType
    ensures { result ≡ message_qos form.now }
{
    QoSType {
        priority: form.priority,
        congestion: congestion(form.blocks),
        express: form.express,
    }
}

/// What it says of its key, if the encoding is UTF-8.
pub(crate) fn body(
    alloc: Global,
    form: &MessageForm,
    parts: &PartsForm<'_>,
) -> Result<Option<Body>, AllocError>
    ensures { IfOk result (λ found. found ≡ body_of form.now parts.now) }
{
    let Some(encoding) = text_in(alloc, parts.encoding)? else {
        return Ok(None);
    };
    let payload = ZBytes::from_slice(alloc, parts.payload)?;
    let attachment = attachment_in(alloc, form.has_attachment, parts.attachment)?;
    Ok(Some(Body {
        kind: sample_kind(form.deletes),
        payload,
        encoding,
        timestamp: form.timestamp.read(),
        source: form.source.read(),
        attachment,
    }))
}
