//! The forms of what a get is told from the network, each read from the fields behind its word.

ghost use Rattle.std.specs.Prelude.{◌≡◌, IfOk};
ghost use Rattle.zs_grammar.specs.Grammar.{responded, response_value_of, response_error_of, response_on, response_of, response_final_of};

use crate::bodies::body_of;
use std::alloc::{AllocError, Global};
use zs_events::Update;
use zs_parts::Fields;
use zs_sample::SampleKind;
use zs_wire::{
    Answered, CongestionControl, EntityGlobalId, Message, QoSType, Response, Value, WireExpr,
};

/// `response N WIRE put BYTES`, `response N WIRE del` and `response N WIRE err BYTES`
#[tactic(auto, unfolding(crate::specs::Grammar::response_of))]
pub(crate) fn parse_response(
    alloc: Global,
    fields: &mut Fields<'_>,
) -> Result<Option<Message>, AllocError>
    ensures { IfOk result (λ found. found ≡ response_of fields.old) }
{
    let Some(rid) = fields.id() else {
        return Ok(None);
    };
    parse_response_on(alloc, rid, fields)
}

/// `WIRE` and what follows, behind `response N`
#[tactic(auto, unfolding(crate::specs::Grammar::response_on))]
fn parse_response_on(
    alloc: Global,
    rid: u32,
    fields: &mut Fields<'_>,
) -> Result<Option<Message>, AllocError>
    ensures { IfOk result (λ found. found ≡ response_on rid fields.old) }
{
    let Some(wire) = fields.wire(alloc)? else {
        return Ok(None);
    };
    let Some(word) = fields.next() else {
        return Ok(None);
    };
    match word {
        "put" => parse_response_value(alloc, rid, wire, SampleKind::Put, fields),
        "del" => parse_response_value(alloc, rid, wire, SampleKind::Delete, fields),
        "err" => parse_response_error(alloc, rid, wire, fields),
        _ => Ok(None),
    }
}

/// `put BYTES` or `del`, and the options, behind `response N WIRE`
#[tactic(auto, unfolding(zs_parts::specs::Parts::form))]
fn parse_response_value(
    alloc: Global,
    rid: u32,
    wire: WireExpr,
    kind: SampleKind,
    fields: &mut Fields<'_>,
) -> Result<Option<Message>, AllocError>
    ensures { IfOk result (λ found. found ≡ response_value_of rid wire kind fields.old) }
{
    let Some(body) = fields.push_body(alloc, kind)? else {
        return Ok(None);
    };
    let timestamp = fields.timestamp();
    let qos = fields.qos(0, CongestionControl::Block);
    let source = fields.source();
    let attachment = fields.attachment(alloc)?;
    let body = body_of(Update {
        body,
        timestamp,
        source,
        attachment,
    });
    let responder = fields.responder();
    Ok(fields.finish(responded(rid, wire, Answered::Reply(body), qos, responder)))
}

/// `BYTES` and the options, behind `response N WIRE err`
#[tactic(auto, unfolding(zs_parts::specs::Parts::form))]
fn parse_response_error(
    alloc: Global,
    rid: u32,
    wire: WireExpr,
    fields: &mut Fields<'_>,
) -> Result<Option<Message>, AllocError>
    ensures { IfOk result (λ found. found ≡ response_error_of rid wire fields.old) }
{
    let Some(payload) = fields.payload(alloc)? else {
        return Ok(None);
    };
    let encoding = fields.encoding(alloc)?;
    let qos = fields.qos(0, CongestionControl::Block);
    let responder = fields.responder();
    let error = Answered::Err(Value { payload, encoding });
    Ok(fields.finish(responded(rid, wire, error, qos, responder)))
}

/// What a get is told.
fn responded(
    rid: u32,
    wire: WireExpr,
    answered: Answered,
    qos: QoSType,
    responder: Option<EntityGlobalId>,
) -> Message
    ensures { result ≡ responded rid wire answered qos responder }
{
    Message::Response(Response {
        rid,
        wire,
        answered,
        qos,
        responder,
    })
}

/// `responsefinal N`
#[tactic(auto, unfolding(zs_parts::specs::Parts::form))]
pub(crate) fn parse_response_final(fields: &mut Fields<'_>) -> Option<Message>
    ensures { result ≡ response_final_of fields.old }
{
    let rid = fields.id()?;
    fields.finish(Message::ResponseFinal { rid })
}
