//! Parameters by worked texts, defaults, and a copy of each message with memory at hand.

use std::alloc::Global;
use zs_wire::{
    Answered, Body, CongestionControl, ConsolidationMode, Mapping, Message, Parameters, Push,
    QoSType, QueryTarget, Request, Response, SampleKind, Text, Timestamp, Value, WireExpr, ZBytes,
    ZenohParameters,
};

/// A text, what is left of it where it is given whole, and the pairs that it has.
static TEXTS: [(&str, &str, &[(&str, &str)]); 12] = [
    ("", "", &[]),
    (
        "x=1;y;x=2",
        "x=1;y;x=2",
        &[("x", "1"), ("y", ""), ("x", "2")],
    ),
    (";;x=1;;y;", ";;x=1;;y", &[("x", "1"), ("y", "")]),
    ("a=b=c", "a=b=c", &[("a", "b=c")]),
    ("=v;x", "=v;x", &[("", "v"), ("x", "")]),
    ("=;x", "=;x", &[("", ""), ("x", "")]),
    ("x=1;|=;", "x=1", &[("x", "1")]),
    ("x=|", "x", &[("x", "")]),
    ("|x=1", "|x=1", &[("|x", "1")]),
    (";=|", "", &[]),
    ("a|b;c", "a|b;c", &[("a|b", ""), ("c", "")]),
    ("å=ö;", "å=ö", &[("å", "ö")]),
];

/// Whether parameters have just those pairs, in that order.
fn has_pairs(parameters: &Parameters<'_>, pairs: &[(&str, &str)]) -> bool {
    parameters.iter().eq(pairs.iter().copied())
}

/// Whether so much is left of a text that is given whole, and it has just those pairs.
fn is_read_as(text: &str, kept: &str, pairs: &[(&str, &str)]) -> bool {
    let parameters = Parameters::of(text);
    parameters.as_str() == kept && has_pairs(&parameters, pairs)
}

/// Texts lose separators at their end alone, and have the worked pairs.
#[test]
fn parameter_texts(rt: HostRuntime) {
    for (text, kept, pairs) in &TEXTS {
        assert!(rt; is_read_as(text, kept, pairs), "{text}");
    }
}

/// What is done with parameters.
enum Change {
    Insert(&'static str, &'static str),
    Remove(&'static str),
    SetTimeRange(&'static str),
    SetAnyKey,
    Extend(&'static str),
}

/// A text, a change, and the text once it is made.
static CHANGES: [(&str, Change, &str); 15] = [
    ("x=1;y;x=2", Change::Insert("x", "3"), "y;x=3"),
    ("x=1;;y", Change::Insert("z", ""), "x=1;y;z"),
    ("=;x", Change::Insert("y", "1"), ";x;y=1"),
    ("=;x", Change::Insert("", ""), "x;"),
    ("=v;x", Change::Insert("x", ""), "=v;x"),
    ("", Change::Insert("a", "b=c"), "a=b=c"),
    ("x=1;y;x=2", Change::Remove("x"), "y"),
    ("x=1;;y", Change::Remove("z"), "x=1;;y"),
    ("=;x", Change::Remove("y"), "=;x"),
    ("=;x", Change::Remove(""), "x"),
    ("=v;x", Change::Remove("x"), "=v"),
    ("", Change::Remove("a"), ""),
    (
        "_timetrick;_time=[..]",
        Change::SetTimeRange("[now()]"),
        "_timetrick;_time=[now()]",
    ),
    ("_anyke=1;x", Change::SetAnyKey, "x;_anyke"),
    ("x=2", Change::Extend("x=1;y"), "x=1;y"),
];

/// Extends parameters by those of a text: whether there was memory for it.
fn extends(alloc: Global, parameters: &mut Parameters<'_>, text: &str) -> bool {
    let more = Parameters::of(text);
    parameters.extend(alloc, &more).is_ok()
}

/// Makes a change, and answers whether there was memory for it.
fn changes(alloc: Global, parameters: &mut Parameters<'_>, change: &Change) -> bool {
    match change {
        Change::Insert(name, value) => parameters.insert(alloc, name, value).is_ok(),
        Change::Remove(name) => parameters.remove(alloc, name).is_ok(),
        Change::SetTimeRange(range) => parameters.set_time_range(alloc, Some(range)).is_ok(),
        Change::SetAnyKey => parameters.set_reply_key_expr_any(alloc).is_ok(),
        Change::Extend(text) => extends(alloc, parameters, text),
    }
}

/// Whether a text becomes another one by a change.
fn becomes(alloc: Global, text: &str, change: &Change, want: &str) -> bool {
    let mut parameters = Parameters::of(text);
    changes(alloc, &mut parameters, change) && parameters.as_str() == want
}

/// Each worked change gives its text.
#[test]
fn changed_texts(rt: HostRuntime) {
    for (text, change, want) in &CHANGES {
        let holds = becomes(rt.alloc(), text, change, want);
        assert!(rt; holds, "{text} to {want}");
    }
}

/// Whether defaults are those of the Zenoh API.
fn are_defaults() -> bool {
    SampleKind::default() == SampleKind::Put
        && CongestionControl::default() == CongestionControl::Drop
        && QueryTarget::default() == QueryTarget::BestMatching
        && ConsolidationMode::default() == ConsolidationMode::Auto
}

/// Whether timestamps are ordered by their times, and then by their ids.
fn are_ordered() -> bool {
    let early = Timestamp { time: 1, id: 9 };
    let late = Timestamp { time: 2, id: 1 };
    early < late && late < Timestamp { time: 2, id: 2 }
}

/// Whether kinds and these parameters are printed so.
fn are_printed(alloc: Global, parameters: &Parameters<'_>) -> bool {
    match format!(in alloc; "{} {} {parameters}", SampleKind::Put, SampleKind::Delete) {
        Ok(text) => text.as_str() == "PUT DELETE x=1",
        Err(_) => false,
    }
}

/// Whether parameters in memory of their own are printed as those that they were made of.
fn are_owned(alloc: Global) -> bool {
    match Parameters::of("x=1;").into_owned(alloc) {
        Ok(owned) => are_printed(alloc, &owned),
        Err(_) => false,
    }
}

/// Defaults are Zenoh's, timestamps are ordered, and small values are printed as they must.
#[test]
fn small_values(rt: HostRuntime) {
    assert!(rt; are_defaults());
    assert!(rt; are_ordered());
    assert!(rt; are_owned(rt.alloc()));
}

const QOS: QoSType = QoSType {
    priority: 3,
    congestion: CongestionControl::Block,
    express: true,
};

/// A key on the wire: number 1 that the receiver declared, with nothing behind it.
fn key() -> WireExpr {
    WireExpr {
        scope: 1,
        suffix: Text::empty(),
        mapping: Mapping::Receiver,
    }
}

/// An empty value of Zenoh's default encoding.
fn value() -> Value {
    Value {
        payload: ZBytes::new(),
        encoding: Text::zenoh_bytes(),
    }
}

/// The body of an empty put with an attachment.
fn body() -> Body {
    Body {
        kind: SampleKind::Put,
        payload: ZBytes::new(),
        encoding: Text::zenoh_bytes(),
        timestamp: None,
        source: None,
        attachment: Some(ZBytes::new()),
    }
}

/// A reliable push of a put.
fn push() -> Message {
    Message::Push(Push {
        wire: key(),
        body: body(),
        qos: QOS,
        reliable: true,
    })
}

/// Request 4, of all complete queryables, with a value and an attachment.
fn request() -> Message {
    Message::Request(Request {
        rid: 4,
        wire: key(),
        parameters: Text::empty(),
        target: QueryTarget::AllComplete,
        consolidation: ConsolidationMode::Monotonic,
        timeout: 10,
        value: Some(value()),
        qos: QOS,
        source: None,
        attachment: Some(ZBytes::new()),
    })
}

/// The response to request 4 that is an error.
fn response() -> Message {
    Message::Response(Response {
        rid: 4,
        wire: key(),
        answered: Answered::Err(value()),
        qos: QOS,
        responder: None,
    })
}

/// The declaration of complete queryable 5.
fn queryable() -> Message {
    Message::DeclareQueryable {
        id: 5,
        complete: true,
        wire: key(),
    }
}

/// The undeclaration of token 5, with its key.
fn token_end() -> Message {
    Message::UndeclareToken {
        id: 5,
        wire: Some(key()),
        interest: None,
    }
}

/// The kinds of the messages that are copied.
enum Kind {
    Push,
    Request,
    Response,
    TokenEnd,
    Queryable,
    Final,
    Close,
}

static KINDS: [(Kind, &str); 7] = [
    (Kind::Push, "a push"),
    (Kind::Request, "a request"),
    (Kind::Response, "a response"),
    (Kind::TokenEnd, "the end of a token"),
    (Kind::Queryable, "a queryable"),
    (Kind::Final, "a final"),
    (Kind::Close, "a close"),
];

/// The message of a kind.
fn message(kind: &Kind) -> Message {
    match kind {
        Kind::Push => push(),
        Kind::Request => request(),
        Kind::Response => response(),
        Kind::TokenEnd => token_end(),
        Kind::Queryable => queryable(),
        Kind::Final => Message::DeclareFinal { interest: Some(6) },
        Kind::Close => Message::Close,
    }
}

/// Whether the message of a kind can be copied while memory is there.
fn is_copied(alloc: Global, kind: &Kind) -> bool {
    let message = message(kind);
    match message.try_clone(alloc) {
        Ok(copy) => {
            drop(copy);
            true
        }
        Err(_) => false,
    }
}

/// A message of each kind can be copied while memory is there.
#[test]
fn copied_messages(rt: HostRuntime) {
    for (kind, name) in &KINDS {
        assert!(rt; is_copied(rt.alloc(), kind), "{name}");
    }
}
