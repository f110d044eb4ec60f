//! The printed text of messages.

ghost use Rattle.std.specs.Prelude.{◌≡◌, [], ◌∷◌, ◌++◌, OnOk, option_map, codes};
ghost use Rattle.std.specs.String.{string_bytes};
ghost use Rattle.zs_wire.specs.declared.message.Message.TheVariants.{DeclareKeyExpr, DeclareSubscriber, DeclareQueryable, DeclareToken, UndeclareToken, Interest};
ghost use Rattle.zs_printing.specs.Pieces.{word, number, wire, payload, encoding, source, attachment, interest, pieces_text};
ghost use Rattle.zs_parts.specs.Symbols.{naming};
ghost use Rattle.zs_printing.specs.Printing.{verb_pieces, push_options, push_pieces, query_pieces, query_options, request_pieces, reply_pieces, reply_error_pieces, answered_pieces, response_pieces, message_pieces};

use crate::piece_printing::{
    append_attachment, append_consolidation, append_encoding, append_interest, append_number,
    append_parameters, append_payload, append_qos, append_reliable, append_responder,
    append_source, append_target, append_timeout, append_timestamp, append_value, append_wire,
    append_wire_if, append_word,
};
use crate::words::{complete_word, mode_word, what_word};
use std::alloc::AllocError;
use zs_sample::{QoSType, SampleKind, Text, ZBytes};
use zs_wire::{
    Answered, Body, InterestMode, InterestWhat, Message, Push, Request, Response, Value, WireExpr,
};

/// Puts a message behind a text.
#[tactic(auto, using(crate::proofs::Joining::joining))]
pub(crate) fn append_message(out: &mut String, message: &Message) -> Result<(), AllocError>
    ensures { OnOk result (string_bytes out.new ≡ string_bytes out.old ++ pieces_text (message_pieces message.now)) }
{
    match message {
        Message::DeclareKeyExpr { number, wire } => append_keyed(
            out,
            "keyexpr",
            u32::from(*number),
            wire,
        ),
        Message::UndeclareKeyExpr { number } => append_numbered(
            out,
            "unkeyexpr",
            u32::from(*number),
        ),
        Message::DeclareSubscriber { id, wire } => append_keyed(out, "sub", *id, wire),
        Message::UndeclareSubscriber { id } => append_numbered(out, "unsub", *id),
        Message::DeclareQueryable { id, complete, wire } => append_queryable(
            out, *id, *complete, wire,
        ),
        Message::UndeclareQueryable { id } => append_numbered(out, "unqueryable", *id),
        Message::DeclareToken { id, wire, interest } => append_token(out, *id, wire, *interest),
        Message::UndeclareToken { id, wire, interest } => append_untoken(out, *id, wire, *interest),
        Message::DeclareFinal { interest } => append_asked(out, "declarefinal", *interest),
        Message::Interest {
            id,
            mode,
            what,
            wire,
        } => append_interest_message(out, *id, *mode, *what, wire),
        Message::Push(push) => append_push(out, push),
        Message::Request(request) => append_request(out, request),
        Message::Response(response) => append_response(out, response),
        Message::ResponseFinal { rid } => append_numbered(out, "responsefinal", *rid),
        Message::Close => append_word(out, "close"),
    }
}

/// The word of a message, and its number.
#[tactic(auto, using(crate::proofs::Joining::joining))]
fn append_numbered(out: &mut String, name: &str, id: u32) -> Result<(), AllocError>
    ensures { OnOk result (string_bytes out.new ≡ string_bytes out.old ++ pieces_text (word name.now ∷ number id ∷ [])) }
{
    append_word(out, name)?;
    append_number(out, id)
}

/// The word of a message, its number, and the wire expression that it is about.
#[tactic(auto, using(crate::proofs::Joining::joining))]
fn append_keyed(out: &mut String, name: &str, id: u32, key: &WireExpr) -> Result<(), AllocError>
    ensures { OnOk result (string_bytes out.new ≡ string_bytes out.old ++ pieces_text (word name.now ∷ number id ∷ wire key.now ∷ [])) }
{
    append_word(out, name)?;
    append_number(out, id)?;
    append_wire(out, key)
}

/// The declaration of a queryable, with `complete` or `partial` before its key.
#[tactic(auto, using(crate::proofs::Joining::joining))]
fn append_queryable(
    out: &mut String,
    id: u32,
    complete: bool,
    key: &WireExpr,
) -> Result<(), AllocError>
    ensures { OnOk result (string_bytes out.new
        ≡ string_bytes out.old ++ pieces_text (message_pieces (DeclareQueryable id complete key.now))) }
{
    append_word(out, "queryable")?;
    append_number(out, id)?;
    append_word(out, complete_word(complete))?;
    append_wire(out, key)
}

/// The declaration of a token, with the interest that it answers, if it answers one.
#[tactic(auto, using(crate::proofs::Joining::joining))]
fn append_token(
    out: &mut String,
    id: u32,
    key: &WireExpr,
    asked: Option<u32>,
) -> Result<(), AllocError>
    ensures { OnOk result (string_bytes out.new
        ≡ string_bytes out.old ++ pieces_text (message_pieces (DeclareToken id key.now asked))) }
{
    append_keyed(out, "token", id, key)?;
    append_interest(out, asked)
}

/// A wire expression that names something.
fn naming(key: &Option<WireExpr>) -> Option<&WireExpr>
    ensures { option_map (λ w. w.now) result ≡ naming key.now }
{
    let key = key.as_ref()?;
    if key.scope == 0 && key.suffix.is_empty() {
        return None;
    }
    Some(key)
}

/// The end of a token, with its key where the message names one, and the interest, if there is one.
#[tactic(auto, using(crate::proofs::Joining::joining))]
fn append_untoken(
    out: &mut String,
    id: u32,
    key: &Option<WireExpr>,
    asked: Option<u32>,
) -> Result<(), AllocError>
    ensures { OnOk result (string_bytes out.new
        ≡ string_bytes out.old ++ pieces_text (message_pieces (UndeclareToken id key.now asked))) }
{
    append_numbered(out, "untoken", id)?;
    append_wire_if(out, naming(key))?;
    append_interest(out, asked)
}

/// The word of a message, and the interest that it answers, if it answers one.
#[tactic(auto, using(crate::proofs::Joining::joining))]
fn append_asked(out: &mut String, name: &str, id: Option<u32>) -> Result<(), AllocError>
    ensures { OnOk result (string_bytes out.new ≡ string_bytes out.old ++ pieces_text (word name.now ∷ interest id ∷ [])) }
{
    append_word(out, name)?;
    append_interest(out, id)
}

/// An interest: its number, mode and subject, and its key, if it has one.
#[tactic(auto, using(crate::proofs::Joining::joining))]
fn append_interest_message(
    out: &mut String,
    id: u32,
    mode: InterestMode,
    what: InterestWhat,
    key: &Option<WireExpr>,
) -> Result<(), AllocError>
    ensures { OnOk result (string_bytes out.new
        ≡ string_bytes out.old ++ pieces_text (message_pieces (Interest id mode what key.now))) }
{
    append_numbered(out, "interest", id)?;
    append_word(out, mode_word(mode))?;
    append_word(out, what_word(what))?;
    append_wire_if(out, key.as_ref())
}

/// The verb of a body, with the value of a put.
#[tactic(auto, using(crate::proofs::Joining::joining))]
fn append_verb(out: &mut String, body: &Body) -> Result<(), AllocError>
    ensures { OnOk result (string_bytes out.new
        ≡ string_bytes out.old ++ pieces_text (verb_pieces body.now.kind body.now)) }
{
    match body.kind {
        SampleKind::Put => append_content(out, "put", &body.payload, &body.encoding),
        SampleKind::Delete => append_word(out, "del"),
    }
}

/// A word, bytes, and what they are.
#[tactic(auto, using(crate::proofs::Joining::joining))]
fn append_content(
    out: &mut String,
    name: &str,
    bytes: &ZBytes,
    text: &Text,
) -> Result<(), AllocError>
    ensures { OnOk result (string_bytes out.new
        ≡ string_bytes out.old ++ pieces_text (word name.now ∷ payload bytes.now ∷ encoding text.now ∷ [])) }
{
    append_word(out, name)?;
    append_payload(out, bytes)?;
    append_encoding(out, text)
}

/// Where data came from, and what was sent along.
#[tactic(auto, using(crate::proofs::Joining::joining))]
fn append_origin(out: &mut String, body: &Body) -> Result<(), AllocError>
    ensures { OnOk result (string_bytes out.new
        ≡ string_bytes out.old ++ pieces_text (source body.now.source ∷ attachment body.now.attachment ∷ [])) }
{
    append_source(out, body.source)?;
    append_attachment(out, body.attachment.as_ref())
}

/// A push: its key, what it does there, and its options.
#[tactic(auto, using(crate::proofs::Joining::joining))]
fn append_push(out: &mut String, push: &Push) -> Result<(), AllocError>
    ensures { OnOk result (string_bytes out.new ≡ string_bytes out.old ++ pieces_text (push_pieces push.now)) }
{
    append_word(out, "push")?;
    append_wire(out, &push.wire)?;
    append_verb(out, &push.body)?;
    append_push_options(out, push)
}

/// The timestamp, qualities, source and attachment of a push, in the order of the script's options.
#[tactic(auto, using(crate::proofs::Joining::joining))]
fn append_push_options(out: &mut String, push: &Push) -> Result<(), AllocError>
    ensures { OnOk result (string_bytes out.new ≡ string_bytes out.old ++ pieces_text (push_options push.now)) }
{
    append_timestamp(out, push.body.timestamp)?;
    append_qos(out, push.qos)?;
    append_reliable(out, push.reliable)?;
    append_origin(out, &push.body)
}

/// A request: its number and key, what it asks, and what it carries.
#[tactic(auto, using(crate::proofs::Joining::joining))]
fn append_request(out: &mut String, request: &Request) -> Result<(), AllocError>
    ensures { OnOk result (string_bytes out.new ≡ string_bytes out.old ++ pieces_text (request_pieces request.now)) }
{
    append_keyed(out, "request", request.rid, &request.wire)?;
    append_query(out, request)?;
    append_query_options(out, request)
}

/// The parameters of a request, and how it is to be answered: by whom, how consolidated, and within what time.
#[tactic(auto, using(crate::proofs::Joining::joining))]
fn append_query(out: &mut String, request: &Request) -> Result<(), AllocError>
    ensures { OnOk result (string_bytes out.new ≡ string_bytes out.old ++ pieces_text (query_pieces request.now)) }
{
    append_parameters(out, request.parameters.as_str())?;
    append_target(out, request.target)?;
    append_consolidation(out, request.consolidation)?;
    append_timeout(out, request.timeout)
}

/// What a request carries: its value, qualities, source and attachment.
#[tactic(auto, using(crate::proofs::Joining::joining))]
fn append_query_options(out: &mut String, request: &Request) -> Result<(), AllocError>
    ensures { OnOk result (string_bytes out.new ≡ string_bytes out.old ++ pieces_text (query_options request.now)) }
{
    append_value(out, &request.value)?;
    append_qos(out, request.qos)?;
    append_source(out, request.source)?;
    append_attachment(out, request.attachment.as_ref())
}

/// A response: the request that it answers, its key, what it brings, and who answers, where that is known.
#[tactic(auto, using(crate::proofs::Joining::joining))]
fn append_response(out: &mut String, response: &Response) -> Result<(), AllocError>
    ensures { OnOk result (string_bytes out.new ≡ string_bytes out.old ++ pieces_text (response_pieces response.now)) }
{
    append_keyed(out, "response", response.rid, &response.wire)?;
    append_answered(out, &response.answered, response.qos)?;
    append_responder(out, response.responder)
}

/// What a response brings: a reply, or an error. The quality of service is the response's.
#[tactic(auto, using(crate::proofs::Joining::joining))]
fn append_answered(
    out: &mut String,
    answered: &Answered,
    quality: QoSType,
) -> Result<(), AllocError>
    ensures { OnOk result (string_bytes out.new ≡ string_bytes out.old ++ pieces_text (answered_pieces answered.now quality)) }
{
    match answered {
        Answered::Reply(body) => append_reply(out, body, quality),
        Answered::Err(value) => append_reply_error(out, value, quality),
    }
}

/// A reply: a put or a deletion, with the options of a push but for the reliability.
#[tactic(auto, using(crate::proofs::Joining::joining))]
fn append_reply(out: &mut String, body: &Body, quality: QoSType) -> Result<(), AllocError>
    ensures { OnOk result (string_bytes out.new ≡ string_bytes out.old ++ pieces_text (reply_pieces body.now quality)) }
{
    append_verb(out, body)?;
    append_timestamp(out, body.timestamp)?;
    append_qos(out, quality)?;
    append_origin(out, body)
}

/// An error: its payload and encoding, and the quality of service. It has no other option.
#[tactic(auto, using(crate::proofs::Joining::joining))]
fn append_reply_error(out: &mut String, value: &Value, quality: QoSType) -> Result<(), AllocError>
    ensures { OnOk result (string_bytes out.new ≡ string_bytes out.old ++ pieces_text (reply_error_pieces value.now quality)) }
{
    append_content(out, "err", &value.payload, &value.encoding)?;
    append_qos(out, quality)
}
