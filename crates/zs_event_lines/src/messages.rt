//! Lines of messages that come in.

ghost use Rattle.std.specs.Prelude.{◌≡◌, ◌∷◌, Some, IfOk};
ghost use Rattle.std.specs.String.{string_bytes};
ghost use Rattle.zs_wire.specs.declared.message.Message.TheVariants.{DeclareKeyExpr, DeclareQueryable, DeclareToken, UndeclareToken, Push as push_message, Request as request_message, Response as response_message};
ghost use Rattle.zs_wire.specs.declared.response.Answered.TheVariants.{Reply, Err};
ghost use Rattle.zs_parts.specs.Symbols.{u32_max};
ghost use Rattle.zs_grammar.specs.Grammar.{number_parts};
ghost use Rattle.zs_event_lines.specs.Slots.{said, slots_of, printed, IsPrinted};
ghost use Rattle.zs_event_lines.specs.Lines.{named_timeout, is_said_body, message_line, answered_line, net_line};

use crate::lines::append_line;
use crate::shown::Shown;
use std::alloc::AllocError;
use zs_parts::is_default;
use zs_sample::SampleKind;
use zs_script::words::sample_word;
use zs_wire::{
    Answered, Body, CongestionControl, Message, Push, Request, Response, Value, WireExpr,
};

/// The line of a message that comes in.
pub(crate) fn append_net(out: &mut String, message: &Message) -> Result<bool, AllocError>
    ensures { IfOk result (λ told.
        IsPrinted (printed (net_line (message_line message.now))) told (string_bytes out.old) (string_bytes out.new)) }
{
    match message {
        Message::DeclareKeyExpr { number, wire } => append_key_expr(out, *number, wire),
        Message::UndeclareKeyExpr { number } => append_line(
            out,
            "net",
            &[Shown::Said("unkeyexpr"), Shown::KeyNumber(*number)],
        ),
        Message::DeclareSubscriber { id, wire } => append_line(
            out,
            "net",
            &[Shown::Said("sub"), Shown::Number(*id), Shown::Wire(wire)],
        ),
        Message::UndeclareSubscriber { id } => append_number(out, "unsub", *id),
        Message::DeclareQueryable { id, complete, wire } => {
            append_queryable(out, *id, *complete, wire)
        }
        Message::UndeclareQueryable { id } => append_number(out, "unqueryable", *id),
        Message::DeclareToken { id, wire, interest } => append_token(out, *id, wire, *interest),
        Message::UndeclareToken { id, wire, interest } => append_untoken(out, *id, wire, *interest),
        Message::DeclareFinal { interest } => append_line(
            out,
            "net",
            &[Shown::Said("declarefinal"), Shown::Interest(*interest)],
        ),
        Message::Interest { .. } => Ok(false),
        Message::Push(push) => append_push(out, push),
        Message::Request(request) => append_request(out, request),
        Message::Response(response) => append_response(out, response),
        Message::ResponseFinal { rid } => append_number(out, "responsefinal", *rid),
        Message::Close => append_line(out, "net", &[Shown::Said("close")]),
    }
}

/// The line of a message of that name with a number.
fn append_number(out: &mut String, name: &str, id: u32) -> Result<bool, AllocError>
    ensures { IfOk result (λ told.
        IsPrinted (printed (net_line (Some (said name.now ∷ slots_of (number_parts u32_max) (id, tt)))))
        told (string_bytes out.old) (string_bytes out.new)) }
{
    append_line(out, "net", &[Shown::Said(name), Shown::Number(id)])
}

/// The line of a key that is declared under a number.
fn append_key_expr(out: &mut String, number: u16, wire: &WireExpr) -> Result<bool, AllocError>
    ensures { IfOk result (λ told.
        IsPrinted (printed (net_line (message_line (DeclareKeyExpr number wire.now)))) told (string_bytes out.old) (string_bytes out.new)) }
{
    append_line(
        out,
        "net",
        &[
            Shown::Said("keyexpr"),
            Shown::KeyNumber(number),
            Shown::Wire(wire),
        ],
    )
}

/// The line of a queryable that is declared.
fn append_queryable(
    out: &mut String,
    id: u32,
    complete: bool,
    wire: &WireExpr,
) -> Result<bool, AllocError>
    ensures { IfOk result (λ told.
        IsPrinted (printed (net_line (message_line (DeclareQueryable id complete wire.now))))
        told (string_bytes out.old) (string_bytes out.new)) }
{
    append_line(
        out,
        "net",
        &[
            Shown::Said("queryable"),
            Shown::Number(id),
            Shown::Complete(complete),
            Shown::Wire(wire),
        ],
    )
}

/// The line of a liveliness token that is declared, with the interest that it answers, if any.
fn append_token(
    out: &mut String,
    id: u32,
    wire: &WireExpr,
    interest: Option<u32>,
) -> Result<bool, AllocError>
    ensures { IfOk result (λ told.
        IsPrinted (printed (net_line (message_line (DeclareToken id wire.now interest))))
        told (string_bytes out.old) (string_bytes out.new)) }
{
    append_line(
        out,
        "net",
        &[
            Shown::Said("token"),
            Shown::Number(id),
            Shown::Wire(wire),
            Shown::Interest(interest),
        ],
    )
}

/// The line of a liveliness token that ends. It names the key if the message does.
fn append_untoken(
    out: &mut String,
    id: u32,
    wire: &Option<WireExpr>,
    interest: Option<u32>,
) -> Result<bool, AllocError>
    ensures { IfOk result (λ told.
        IsPrinted (printed (net_line (message_line (UndeclareToken id wire.now interest))))
        told (string_bytes out.old) (string_bytes out.new)) }
{
    append_line(
        out,
        "net",
        &[
            Shown::Said("untoken"),
            Shown::Number(id),
            Shown::WireIf(wire),
            Shown::Interest(interest),
        ],
    )
}

/// Whether lines say such a body.
fn is_said_body(body: &Body) -> bool
    ensures { result ≡ is_said_body body.now.kind body.now }
{
    match body.kind {
        SampleKind::Put => !body.encoding.is_empty(),
        SampleKind::Delete => body.payload.is_empty() && is_default(&body.encoding),
    }
}

/// The line of a publication. There is none where no line says its body, as of a deletion with a payload.
fn append_push(out: &mut String, push: &Push) -> Result<bool, AllocError>
    ensures { IfOk result (λ told.
        IsPrinted (printed (net_line (message_line (push_message push.now))))
        told (string_bytes out.old) (string_bytes out.new)) }
{
    if !is_said_body(&push.body) {
        return Ok(false);
    }
    append_line(
        out,
        "net",
        &[
            Shown::Said("push"),
            Shown::Wire(&push.wire),
            Shown::Said(sample_word(push.body.kind)),
            Shown::Body(&push.body),
            Shown::Timestamp(push.body.timestamp),
            Shown::QoS(0, CongestionControl::Drop, push.qos),
            Shown::Reliable(push.reliable),
            Shown::Source(push.body.source),
            Shown::Attachment(&push.body.attachment),
        ],
    )
}

/// A timeout, where it is not the one of requests that say none.
fn named_timeout(time: u64) -> Option<u64>
    ensures { result ≡ named_timeout time }
{
    if time == 10000 {
        return None;
    }
    Some(time)
}

/// The line of a query. A timeout of 10000 milliseconds has no field, as its absence says it.
fn append_request(out: &mut String, request: &Request) -> Result<bool, AllocError>
    ensures { IfOk result (λ told.
        IsPrinted (printed (net_line (message_line (request_message request.now))))
        told (string_bytes out.old) (string_bytes out.new)) }
{
    append_line(
        out,
        "net",
        &[
            Shown::Said("request"),
            Shown::Number(request.rid),
            Shown::Wire(&request.wire),
            Shown::Parameters(&request.parameters),
            Shown::Target(request.target),
            Shown::Consolidation(request.consolidation),
            Shown::Timeout(named_timeout(request.timeout)),
            Shown::Value(&request.value),
            Shown::QoS(0, CongestionControl::Block, request.qos),
            Shown::Source(request.source),
            Shown::Attachment(&request.attachment),
        ],
    )
}

/// The line of a response, which brings data or an error.
fn append_response(out: &mut String, response: &Response) -> Result<bool, AllocError>
    ensures { IfOk result (λ told.
        IsPrinted (printed (net_line (message_line (response_message response.now))))
        told (string_bytes out.old) (string_bytes out.new)) }
{
    match &response.answered {
        Answered::Reply(body) => append_data(out, body, response),
        Answered::Err(value) => append_error(out, value, response),
    }
}

/// The line of a response that brings data.
fn append_data<'a>(
    out: &mut String,
    body: &'a Body,
    response: &'a Response,
) -> Result<bool, AllocError>
    ensures { IfOk result (λ told.
        IsPrinted (printed (net_line (answered_line (Reply body.now) response.now)))
        told (string_bytes out.old) (string_bytes out.new)) }
{
    if !is_said_body(body) {
        return Ok(false);
    }
    append_line(
        out,
        "net",
        &[
            Shown::Said("response"),
            Shown::Number(response.rid),
            Shown::Wire(&response.wire),
            Shown::Said(sample_word(body.kind)),
            Shown::Body(body),
            Shown::Timestamp(body.timestamp),
            Shown::QoS(0, CongestionControl::Block, response.qos),
            Shown::Source(body.source),
            Shown::Attachment(&body.attachment),
            Shown::Responder(response.responder),
        ],
    )
}

/// The line of a response that brings an error.
fn append_error<'a>(
    out: &mut String,
    value: &'a Value,
    response: &'a Response,
) -> Result<bool, AllocError>
    ensures { IfOk result (λ told.
        IsPrinted (printed (net_line (answered_line (Err value.now) response.now)))
        told (string_bytes out.old) (string_bytes out.new)) }
{
    append_line(
        out,
        "net",
        &[
            Shown::Said("response"),
            Shown::Number(response.rid),
            Shown::Wire(&response.wire),
            Shown::Said("err"),
            Shown::Payload(&value.payload),
            Shown::Encoding(&value.encoding),
            Shown::QoS(0, CongestionControl::Block, response.qos),
            Shown::Responder(response.responder),
        ],
    )
}
