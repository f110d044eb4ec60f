//! The forms of messages that come in, each read from the fields behind its word.

ghost use Rattle.std.specs.Prelude.{◌≡◌, IfOk};
ghost use Rattle.zs_grammar.specs.Grammar.{net_of, message_of, net_close_of, key_expr_of, unkey_expr_of, push_of, push_value_of};

use crate::bodies::body_of;
use crate::declarations::{
    parse_declare_final, parse_net_queryable, parse_net_sub, parse_net_token,
    parse_net_unqueryable, parse_net_unsub, parse_net_untoken,
};
use crate::requests::parse_request;
use crate::responses::{parse_response, parse_response_final};
use std::alloc::{AllocError, Global};
use zs_events::{Event, Shared, Update};
use zs_parts::Fields;
use zs_sample::SampleKind;
use zs_wire::{CongestionControl, Message, Push, WireExpr};

/// `net MESSAGE`
pub(crate) fn parse_net(alloc: Global, fields: &mut Fields<'_>) -> Result<Option<Event>, AllocError>
    ensures { IfOk result (λ found. found ≡ net_of fields.old) }
{
    let Some(message) = parse_message(alloc, fields)? else {
        return Ok(None);
    };
    let message = Shared::new(alloc, message)?;
    Ok(Some(Event::Net(message)))
}

/// A message, behind `net`.
#[tactic(auto, unfolding(crate::specs::Grammar::message_of))]
fn parse_message(alloc: Global, fields: &mut Fields<'_>) -> Result<Option<Message>, AllocError>
    ensures { IfOk result (λ found. found ≡ message_of fields.old) }
{
    let Some(word) = fields.next() else {
        return Ok(None);
    };
    match word {
        "keyexpr" => parse_key_expr(alloc, fields),
        "unkeyexpr" => Ok(parse_unkey_expr(fields)),
        "sub" => parse_net_sub(alloc, fields),
        "unsub" => Ok(parse_net_unsub(fields)),
        "queryable" => parse_net_queryable(alloc, fields),
        "unqueryable" => Ok(parse_net_unqueryable(fields)),
        "token" => parse_net_token(alloc, fields),
        "untoken" => parse_net_untoken(alloc, fields),
        "declarefinal" => Ok(parse_declare_final(fields)),
        "push" => parse_push(alloc, fields),
        "request" => parse_request(alloc, fields),
        "response" => parse_response(alloc, fields),
        "responsefinal" => Ok(parse_response_final(fields)),
        "close" => Ok(parse_net_close(fields)),
        _ => Ok(None),
    }
}

/// `keyexpr N WIRE`
#[tactic(auto, unfolding(zs_parts::specs::Parts::form))]
fn parse_key_expr(alloc: Global, fields: &mut Fields<'_>) -> Result<Option<Message>, AllocError>
    ensures { IfOk result (λ found. found ≡ key_expr_of fields.old) }
{
    let Some(number) = fields.key_number() else {
        return Ok(None);
    };
    let Some(wire) = fields.wire(alloc)? else {
        return Ok(None);
    };
    Ok(fields.finish(Message::DeclareKeyExpr { number, wire }))
}

/// `unkeyexpr N`
#[tactic(auto, unfolding(zs_parts::specs::Parts::form))]
fn parse_unkey_expr(fields: &mut Fields<'_>) -> Option<Message>
    ensures { result ≡ unkey_expr_of fields.old }
{
    let number = fields.key_number()?;
    fields.finish(Message::UndeclareKeyExpr { number })
}

/// `close`
fn parse_net_close(fields: &mut Fields<'_>) -> Option<Message>
    ensures { result ≡ net_close_of fields.old }
{
    fields.finish(Message::Close)
}

/// `push WIRE put BYTES` and `push WIRE del`
#[tactic(auto, unfolding(crate::specs::Grammar::push_of))]
fn parse_push(alloc: Global, fields: &mut Fields<'_>) -> Result<Option<Message>, AllocError>
    ensures { IfOk result (λ found. found ≡ push_of fields.old) }
{
    let Some(wire) = fields.wire(alloc)? else {
        return Ok(None);
    };
    let Some(word) = fields.next() else {
        return Ok(None);
    };
    match word {
        "put" => parse_push_value(alloc, wire, SampleKind::Put, fields),
        "del" => parse_push_value(alloc, wire, SampleKind::Delete, fields),
        _ => Ok(None),
    }
}

/// `put BYTES` or `del`, and the options, behind `push WIRE`
#[tactic(auto, unfolding(zs_parts::specs::Parts::form))]
fn parse_push_value(
    alloc: Global,
    wire: WireExpr,
    kind: SampleKind,
    fields: &mut Fields<'_>,
) -> Result<Option<Message>, AllocError>
    ensures { IfOk result (λ found. found ≡ push_value_of wire kind fields.old) }
{
    let Some(body) = fields.push_body(alloc, kind)? else {
        return Ok(None);
    };
    let timestamp = fields.timestamp();
    let qos = fields.qos(0, CongestionControl::Drop);
    let reliable = fields.reliable();
    let source = fields.source();
    let attachment = fields.attachment(alloc)?;
    let body = body_of(Update {
        body,
        timestamp,
        source,
        attachment,
    });
    Ok(fields.finish(Message::Push(Push {
        wire,
        body,
        qos,
        reliable,
    })))
}
