//! The texts and bytes of messages and of what is handed over.

ghost use Rattle.std.specs.Prelude.{◌≡◌};
ghost use Rattle.std.specs.Option.{option_copied};
ghost use Rattle.zs_message_forms.specs.Contents.{message_parts, effect_parts, wire_parts, named_parts, body_parts, value_parts, answered_parts, sample_parts, reply_parts, query_parts, hand_parts, text_bytes};

use crate::parts::Parts;
use zs_events::{Effect, HandOver};
use zs_query::QueryData;
use zs_sample::{Encoding, Reply, Sample};
use zs_wire::{Answered, Body, Message, Request, WireExpr};

/// The texts and bytes of an effect.
#[tactic(auto, unfolding(crate::specs::Contents::effect_parts))]
pub fn effect_parts(effect: &Effect) -> Parts<'_>
    ensures { result ≡ effect_parts effect.now }
{
    match effect {
        Effect::Send(message) => message_parts(message.get()),
        Effect::Hand(item) => hand_parts(item),
        Effect::End { .. } => Parts::nothing(),
        Effect::Matching { .. } => Parts::nothing(),
    }
}

/// The texts and bytes of a message.
#[tactic(auto, unfolding(crate::specs::Contents::message_parts))]
pub fn message_parts(message: &Message) -> Parts<'_>
    ensures { result ≡ message_parts message.now }
{
    match message {
        Message::DeclareKeyExpr { wire, .. } => wire_parts(wire),
        Message::UndeclareKeyExpr { .. } => Parts::nothing(),
        Message::DeclareSubscriber { wire, .. } => wire_parts(wire),
        Message::UndeclareSubscriber { .. } => Parts::nothing(),
        Message::DeclareQueryable { wire, .. } => wire_parts(wire),
        Message::UndeclareQueryable { .. } => Parts::nothing(),
        Message::DeclareToken { wire, .. } => wire_parts(wire),
        Message::UndeclareToken { wire, .. } => named_parts(wire),
        Message::DeclareFinal { .. } => Parts::nothing(),
        Message::Interest { wire, .. } => named_parts(wire),
        Message::Push(push) => body_parts(&push.wire, &push.body),
        Message::Request(request) => request_parts(request),
        Message::Response(response) => answered_parts(&response.wire, &response.answered),
        Message::ResponseFinal { .. } => Parts::nothing(),
        Message::Close => Parts::nothing(),
    }
}

/// What a key has: its text, or what stands behind its declared number. All else is empty.
fn wire_parts(wire: &WireExpr) -> Parts<'_>
    ensures { result ≡ wire_parts wire.now }
{
    Parts::of_key(wire.suffix.as_str())
}

/// The same of a key that may be left out.
fn named_parts(wire: &Option<WireExpr>) -> Parts<'_>
    ensures { result ≡ named_parts wire.now }
{
    match wire {
        Some(wire) => wire_parts(wire),
        None => Parts::nothing(),
    }
}

/// The texts and bytes of what is put or deleted on a key.
fn body_parts<'a>(wire: &'a WireExpr, body: &'a Body) -> Parts<'a>
    ensures { result ≡ body_parts wire.now body.now }
{
    Parts {
        key: wire.suffix.as_str(),
        payload: Some(&body.payload),
        encoding: body.encoding.as_str(),
        parameters: "",
        attachment: body.attachment.as_ref(),
    }
}

/// The texts and bytes of a query that is sent. Without a value it has no payload, and the empty encoding.
fn request_parts(request: &Request) -> Parts<'_>
    ensures { result ≡ value_parts request.now request.now.value }
{
    let key = request.wire.suffix.as_str();
    let parameters = request.parameters.as_str();
    let attachment = request.attachment.as_ref();
    match &request.value {
        Some(value) => Parts {
            key,
            payload: Some(&value.payload),
            encoding: value.encoding.as_str(),
            parameters,
            attachment,
        },
        None => Parts {
            key,
            payload: None,
            encoding: "",
            parameters,
            attachment,
        },
    }
}

/// The texts and bytes of a response: of its data, or of an error, which has no attachment.
fn answered_parts<'a>(wire: &'a WireExpr, answered: &'a Answered) -> Parts<'a>
    ensures { result ≡ answered_parts wire.now answered.now }
{
    match answered {
        Answered::Reply(body) => body_parts(wire, body),
        Answered::Err(value) => Parts {
            key: wire.suffix.as_str(),
            payload: Some(&value.payload),
            encoding: value.encoding.as_str(),
            parameters: "",
            attachment: None,
        },
    }
}

/// The texts and bytes of what is handed over.
fn hand_parts(item: &HandOver) -> Parts<'_>
    ensures { result ≡ hand_parts item.now }
{
    match item {
        HandOver::Sample { sample, .. } => sample_parts(sample.get()),
        HandOver::Reply { reply, .. } => reply_parts(reply.get()),
        HandOver::Query { query, .. } => query_parts(query.get()),
    }
}

/// The texts and bytes of a sample, whose key is whole.
fn sample_parts(sample: &Sample) -> Parts<'_>
    ensures { result ≡ sample_parts sample.now }
{
    Parts {
        key: sample.key_expr().as_str(),
        payload: Some(sample.payload()),
        encoding: sample.encoding().as_str(),
        parameters: "",
        attachment: sample.attachment(),
    }
}

/// The texts and bytes of a reply: of its sample, or of an error, which has neither key nor attachment.
fn reply_parts(reply: &Reply) -> Parts<'_>
    ensures { result ≡ reply_parts reply.now.result }
{
    match reply.result() {
        Ok(sample) => sample_parts(sample),
        Err(error) => Parts {
            key: "",
            payload: Some(error.payload()),
            encoding: error.encoding().as_str(),
            parameters: "",
            attachment: None,
        },
    }
}

/// The texts and bytes of a query that a queryable is handed.
fn query_parts(query: &QueryData) -> Parts<'_>
    ensures { result ≡ query_parts query.now }
{
    Parts {
        key: query.key_expr().as_str(),
        payload: query.payload(),
        encoding: encoding_text(query.encoding()),
        parameters: query.parameters().as_str(),
        attachment: query.attachment(),
    }
}

/// The name of an encoding: the empty text where there is none.
fn encoding_text(encoding: Option<&Encoding>) -> &str
    ensures { result.now ≡ text_bytes (option_copied encoding.entry) }
{
    match encoding {
        Some(encoding) => encoding.as_str(),
        None => "",
    }
}
