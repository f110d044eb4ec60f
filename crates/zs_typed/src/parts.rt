//! The parts of events.

ghost use Rattle.std.specs.Prelude.{◌≡◌, ◌&&◌, nat_le, true};
ghost use Rattle.std.specs.Str.{all_scalars};
ghost use Rattle.zs_event_lines.specs.Sayable.{are_bytes, if_there, is_body, is_entity, is_key, is_source, is_timestamp, is_wire};
ghost use Rattle.zs_parts.specs.Symbols.{u16_max, u32_max, u64_max};

use crate::symbols::{type_bytes, type_some_bytes, type_some_text, type_text};
use zs_events::{Inquiry, KeyArg, PushBody, Update};
use zs_wire::{EntityGlobalId, SourceInfo, Timestamp, Value, WireExpr};

/// Looks at a number of a key.
pub(crate) fn type_key_number(number: u16)
    ensures { nat_le number u16_max ≡ true }
{
    let _ = number;
}

/// Looks at a key, in whichever way an event names it.
pub(crate) fn type_key(key: &KeyArg)
    ensures { is_key key.now ≡ true }
{
    match key {
        KeyArg::Text(text) => type_text(text),
        KeyArg::Number { number, suffix } => {
            type_key_number(*number);
            type_text(suffix);
        }
        KeyArg::Declared { text, .. } => type_text(text),
    }
}

/// Looks at a wire expression: its number, and the text behind that.
pub(crate) fn type_wire(wire: &WireExpr)
    ensures { is_wire wire.now ≡ true }
{
    type_key_number(wire.scope);
    type_text(&wire.suffix);
}

/// Looks at a wire expression, if there is one.
pub(crate) fn type_some_wire(wire: &Option<WireExpr>)
    ensures { if_there is_wire wire.now ≡ true }
{
    if let Some(wire) = wire {
        type_wire(wire);
    }
}

/// Looks at a number of 32 bits, such as that of an entity or of a request.
pub(crate) fn type_number(number: u32)
    ensures { nat_le number u32_max ≡ true }
{
    let _ = number;
}

/// Looks at such a number, if there is one.
pub(crate) fn type_some_number(number: Option<u32>)
    ensures { if_there (λ n. nat_le n u32_max) number ≡ true }
{
    if let Some(number) = number {
        type_number(number);
    }
}

/// Looks at a number of 64 bits: a moment, in milliseconds.
pub(crate) fn type_moment(moment: u64)
    ensures { nat_le moment u64_max ≡ true }
{
    let _ = moment;
}

/// Looks at a span of time, if there is one.
pub(crate) fn type_some_moment(moment: Option<u64>)
    ensures { if_there (λ n. nat_le n u64_max) moment ≡ true }
{
    let _ = moment;
}

/// Looks at a timestamp, if there is one.
pub(crate) fn type_timestamp(timestamp: Option<Timestamp>)
    ensures { if_there is_timestamp timestamp ≡ true }
{
    let _ = timestamp;
}

/// Looks at the global id of an entity.
pub(crate) fn type_entity(entity: EntityGlobalId)
    ensures { is_entity entity ≡ true }
{
    let _ = entity;
}

/// Looks at the global id of an entity, if there is one.
pub(crate) fn type_some_entity(entity: Option<EntityGlobalId>)
    ensures { if_there is_entity entity ≡ true }
{
    if let Some(entity) = entity {
        type_entity(entity);
    }
}

/// Looks at a source, if there is one: an entity, and a sequence number.
pub(crate) fn type_source(source: Option<SourceInfo>)
    ensures { if_there is_source source ≡ true }
{
    if let Some(source) = source {
        type_entity(source.source_id);
        type_number(source.source_sn);
    }
}

/// Looks at a value: its payload, and the encoding of that.
pub(crate) fn type_value(value: &Value)
    ensures payload { are_bytes value.now.payload ≡ true }
    ensures encoding { all_scalars value.now.encoding ≡ true }
{
    type_bytes(&value.payload);
    type_text(&value.encoding);
}

/// Looks at a value, if there is one.
pub(crate) fn type_some_value(value: &Option<Value>)
    ensures { if_there (λ w. are_bytes w.payload && all_scalars w.encoding) value.now ≡ true }
{
    if let Some(value) = value {
        type_value(value);
    }
}

/// Looks at a put's payload and encoding. A deletion has neither.
fn type_body(body: &PushBody)
    ensures { is_body body.now ≡ true }
{
    match body {
        PushBody::Put { payload, encoding } => {
            type_bytes(payload);
            type_some_text(encoding);
        }
        PushBody::Delete => {}
    }
}

/// Looks at a put or a deletion, with its options.
pub(crate) fn type_update(update: &Update)
    ensures body { is_body update.now.body ≡ true }
    ensures timestamp { if_there is_timestamp update.now.timestamp ≡ true }
    ensures source { if_there is_source update.now.source ≡ true }
    ensures attachment { if_there are_bytes update.now.attachment ≡ true }
{
    type_body(&update.body);
    type_timestamp(update.timestamp);
    type_source(update.source);
    type_some_bytes(&update.attachment);
}

/// Looks at what a get asks beside its key.
pub(crate) fn type_inquiry(inquiry: &Inquiry)
    ensures parameters { all_scalars inquiry.now.parameters ≡ true }
    ensures value { if_there (λ w. are_bytes w.payload && all_scalars w.encoding) inquiry.now.value ≡ true }
    ensures source { if_there is_source inquiry.now.source ≡ true }
    ensures attachment { if_there are_bytes inquiry.now.attachment ≡ true }
    ensures token { if_there (λ n. nat_le n u32_max) inquiry.now.cancellation_token ≡ true }
{
    type_text(&inquiry.parameters);
    type_some_value(&inquiry.value);
    type_source(inquiry.source);
    type_some_bytes(&inquiry.attachment);
    type_some_number(inquiry.cancellation_token);
}
