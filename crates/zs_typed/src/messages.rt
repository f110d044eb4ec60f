//! Messages that come in from the network.

ghost use Rattle.std.specs.Prelude.{◌≡◌, nat_le, true};
ghost use Rattle.std.specs.Str.{all_scalars};
ghost use Rattle.zs_event_lines.specs.Laws.{are_typed};
ghost use Rattle.zs_event_lines.specs.Lines.{answered_line, message_line, net_line, push_line};
ghost use Rattle.zs_event_lines.specs.Sayable.{are_bytes, if_there, is_source, is_timestamp, is_wire};
ghost use Rattle.zs_parts.specs.Symbols.{u32_max};

use crate::parts::{
    type_key_number, type_number, type_some_entity, type_some_moment, type_some_number,
    type_some_value, type_some_wire, type_source, type_timestamp, type_value, type_wire,
};
use crate::symbols::{type_bytes, type_some_bytes, type_text};
use zs_wire::{Answered, Body, Message, Push, Request, Response, WireExpr};

/// Looks at what a push or a reply brings.
fn type_body(body: &Body)
    ensures payload { are_bytes body.now.payload ≡ true }
    ensures encoding { all_scalars body.now.encoding ≡ true }
    ensures timestamp { if_there is_timestamp body.now.timestamp ≡ true }
    ensures source { if_there is_source body.now.source ≡ true }
    ensures attachment { if_there are_bytes body.now.attachment ≡ true }
{
    type_bytes(&body.payload);
    type_text(&body.encoding);
    type_timestamp(body.timestamp);
    type_source(body.source);
    type_some_bytes(&body.attachment);
}

/// Looks at a push: its key, and what it brings.
#[tactic(auto, unfolding(zs_event_lines::specs::Sayable::is_typed))]
fn type_push(push: &Push)
    ensures { are_typed (net_line (push_line push.now.body.kind push.now)) ≡ true }
{
    type_wire(&push.wire);
    type_body(&push.body);
}

/// Looks at a request, which always has a timeout.
#[tactic(auto, unfolding(zs_event_lines::specs::Sayable::is_typed))]
fn type_request(request: &Request)
    ensures { are_typed (net_line (message_line (Message.Request request.now))) ≡ true }
{
    type_number(request.rid);
    type_wire(&request.wire);
    type_text(&request.parameters);
    type_some_moment(Some(request.timeout));
    type_some_value(&request.value);
    type_source(request.source);
    type_some_bytes(&request.attachment);
}

/// Looks at a response, with the reply or the error in it.
#[tactic(auto, unfolding(zs_event_lines::specs::Sayable::is_typed))]
fn type_response(response: &Response)
    ensures { are_typed (net_line (answered_line response.now.answered response.now)) ≡ true }
{
    type_number(response.rid);
    type_wire(&response.wire);
    type_some_entity(response.responder);
    match &response.answered {
        Answered::Reply(body) => type_body(body),
        Answered::Err(value) => type_value(value),
    }
}

/// Looks at a declaration of an entity.
fn type_declared(id: u32, wire: &WireExpr)
    ensures id { nat_le id u32_max ≡ true }
    ensures wire { is_wire wire.now ≡ true }
{
    type_number(id);
    type_wire(wire);
}

/// Looks at a message.
#[tactic(auto, unfolding(zs_event_lines::specs::Sayable::is_typed))]
pub(crate) fn type_message(message: &Message)
    ensures { are_typed (net_line (message_line message.now)) ≡ true }
{
    match message {
        Message::DeclareKeyExpr { number, wire } => {
            type_key_number(*number);
            type_wire(wire);
        }
        Message::UndeclareKeyExpr { number } => type_key_number(*number),
        Message::DeclareSubscriber { id, wire } => type_declared(*id, wire),
        Message::UndeclareSubscriber { id } => type_number(*id),
        Message::DeclareQueryable { id, wire, .. } => type_declared(*id, wire),
        Message::UndeclareQueryable { id } => type_number(*id),
        Message::DeclareToken { id, wire, interest } => {
            type_declared(*id, wire);
            type_some_number(*interest);
        }
        Message::UndeclareToken { id, wire, interest } => {
            type_number(*id);
            type_some_wire(wire);
            type_some_number(*interest);
        }
        Message::DeclareFinal { interest } => type_some_number(*interest),
        Message::Interest { .. } => {}
        Message::Push(push) => type_push(push),
        Message::Request(request) => type_request(request),
        Message::Response(response) => type_response(response),
        Message::ResponseFinal { rid } => type_number(*rid),
        Message::Close => {}
    }
}
