//! What a line asks of its side.

ghost use Rattle.std.specs.Prelude.{◌≡◌, [], Some, IfOk, false};
ghost use Rattle.zs_keys.specs.Matching.{includes};
ghost use Rattle.zs_parts.specs.Symbols.{payload_of};
ghost use Rattle.zs_lines.specs.Lines.{fields};
ghost use Rattle.zs_parts.specs.Fields.{texts};
ghost use Rattle.zs_parts.specs.Options.{timestamp_of};
ghost use Rattle.zs_replica_lines.specs.Lines.{all_keys, has_star, put_of, write_refusal, question_refusal, publication, plain_inquiry, question, write_line, delete_of, get_of, line_of, line_of_one, line_of_two, line_of_three, line_of_four, refusal_name};

use crate::symbols::{parse_payload, parse_timestamp};
use std::alloc::{AllocError, Global};
use zs_events::{
    Chan, Event, Inquiry, KeyArg, PublicationQuality, PushBody, QuerySettings, Update,
};
use zs_keys::KeyExpr;
use zs_sample::{ConsolidationMode, Locality, QoSType, QueryTarget, Text};
use zs_shared::Shared;
use zs_wire::{CongestionControl, Timestamp};

/// Why a line is refused before a session is asked. The first that holds is the one.
#[derive(Clone, Copy, Debug, PartialEq, Eq)]
pub enum ReplicaRefusal {
    /// The key is no canonical key expression.
    BadKeyExpr,
    /// The key of a write has a `*`.
    WildKey,
    /// The key of a write is neither `r` nor below it: it isn't replicated.
    Outside,
}

/// What a line asks of its side.
#[derive(Debug, Drop)]
pub enum ReplicaLine {
    /// Its session takes the event: `put`, `del` or `get`.
    Take(Event),
    /// It is refused.
    Refuse(ReplicaRefusal),
    /// Its store is shown: `dump`.
    Dump,
}

/// The refusal's name.
pub fn refusal_name(refusal: ReplicaRefusal) -> &'static str
    ensures { result.now ≡ refusal_name refusal }
{
    match refusal {
        ReplicaRefusal::BadKeyExpr => "BadKeyExpr",
        ReplicaRefusal::WildKey => "WildKey",
        ReplicaRefusal::Outside => "Outside",
    }
}

/// What a line says behind its side: `put KEYTEXT BYTES TS`, `del KEYTEXT TS`, `get KEYTEXT` or `dump`, with a tab between
/// its fields. Nothing where it has none of these forms.
///
/// # Errors
///
/// Want of memory alone.
pub fn parse_line(alloc: Global, text: &str) -> Result<Option<ReplicaLine>, AllocError>
    ensures { IfOk result (λ found. found ≡ line_of (fields text.now)) }
{
    let fields = split_fields(alloc, text)?;
    parse_fields(alloc, &fields)
}

/// A line's fields, which single tabs separate.
fn split_fields(alloc: Global, line: &str) -> Result<Vec<&str>, AllocError>
    ensures { IfOk result (λ found. texts found.items ≡ fields line.now) }
{
    line.split('\t').collect(alloc)
}

/// How many fields there are decides what a line can be: one field for a dump, two for a get, and so on up to a put.
fn parse_fields(alloc: Global, fields: &[&str]) -> Result<Option<ReplicaLine>, AllocError>
    ensures { IfOk result (λ found. found ≡ line_of (texts fields.now)) }
{
    match fields {
        [] => Ok(None),
        [word] => Ok(parse_dump(word)),
        [word, key] => parse_get(alloc, word, key),
        [word, key, time] => parse_delete(alloc, word, key, time),
        [word, key, bytes, time] => parse_put(alloc, word, key, bytes, time),
        [_, _, _, _, _, ..] => Ok(None),
    }
}

/// A line of one field, which has to be the word `dump`.
fn parse_dump(word: &str) -> Option<ReplicaLine>
    ensures { result ≡ line_of_one word.now }
{
    match word {
        "dump" => Some(ReplicaLine::Dump),
        _ => None,
    }
}

/// A line of two fields: a get, if the word says so. A bad key makes it a refused get.
fn parse_get(alloc: Global, word: &str, key: &str) -> Result<Option<ReplicaLine>, AllocError>
    ensures { IfOk result (λ found. found ≡ line_of_two word.now key.now) }
{
    match word {
        "get" => {
            let line = get_line(alloc, key)?;
            Ok(Some(line))
        }
        _ => Ok(None),
    }
}

/// A line of three fields: a deletion, if the word says so.
fn parse_delete(
    alloc: Global,
    word: &str,
    key: &str,
    time: &str,
) -> Result<Option<ReplicaLine>, AllocError>
    ensures { IfOk result (λ found. found ≡ line_of_three word.now key.now time.now) }
{
    match word {
        "del" => delete_line(alloc, key, time),
        _ => Ok(None),
    }
}

/// A deletion at a key, or its refusal. Nothing where the moment is no timestamp, whatever the key is.
fn delete_line(alloc: Global, key: &str, time: &str) -> Result<Option<ReplicaLine>, AllocError>
    ensures { IfOk result (λ found. found ≡ delete_of key.now (timestamp_of time.now)) }
{
    let Some(time) = parse_timestamp(time) else {
        return Ok(None);
    };
    let line = write_line(alloc, key, PushBody::Delete, time)?;
    Ok(Some(line))
}

/// A line of four fields: a put, if the word says so.
fn parse_put(
    alloc: Global,
    word: &str,
    key: &str,
    bytes: &str,
    time: &str,
) -> Result<Option<ReplicaLine>, AllocError>
    ensures { IfOk result (λ found. found ≡ line_of_four word.now key.now bytes.now time.now) }
{
    match word {
        "put" => put_line(alloc, key, bytes, time),
        _ => Ok(None),
    }
}

/// A put at a key, or its refusal. Nothing where the moment or the bytes can't be read, whatever the key is.
fn put_line(
    alloc: Global,
    key: &str,
    bytes: &str,
    time: &str,
) -> Result<Option<ReplicaLine>, AllocError>
    ensures { IfOk result (λ found. found ≡ put_of key.now (payload_of bytes.now) (timestamp_of time.now)) }
{
    let Some(time) = parse_timestamp(time) else {
        return Ok(None);
    };
    let Some(payload) = parse_payload(alloc, bytes)? else {
        return Ok(None);
    };
    let body = PushBody::Put {
        payload,
        encoding: None,
    };
    let line = write_line(alloc, key, body, time)?;
    Ok(Some(line))
}

/// A write at a key, unless it is refused.
fn write_line(
    alloc: Global,
    key: &str,
    body: PushBody,
    time: Timestamp,
) -> Result<ReplicaLine, AllocError>
    ensures { IfOk result (λ line. line ≡ write_line key.now body time) }
{
    match write_refusal(key) {
        Some(refusal) => {
            drop(body);
            Ok(ReplicaLine::Refuse(refusal))
        }
        None => {
            let event = publication(alloc, key, body, time)?;
            Ok(ReplicaLine::Take(event))
        }
    }
}

/// Why a write at a key is refused.
fn write_refusal(key: &str) -> Option<ReplicaRefusal>
    ensures { result ≡ write_refusal key.now }
{
    let Ok(expression) = KeyExpr::new(key) else {
        return Some(ReplicaRefusal::BadKeyExpr);
    };
    let is_outside = !replicates(&expression);
    drop(expression);
    if has_star(key) {
        return Some(ReplicaRefusal::WildKey);
    }
    if is_outside {
        return Some(ReplicaRefusal::Outside);
    }
    None
}

/// Whether all keys of a key expression are replicated.
fn replicates(key: &KeyExpr<'_>) -> bool
    ensures { result ≡ includes all_keys key.now.text }
{
    let Ok(all) = KeyExpr::new("r/**") else {
        unreachable!();
    };
    all.includes(key)
}

/// Whether a text has a `*`. Each wild card of Zenoh's key expressions has one: `*`, `**` and `$*`.
fn has_star(text: &str) -> bool
    ensures { result ≡ has_star text.now }
{
    text.as_bytes().iter().any(|byte| *byte == b'*')
}

/// A publication of a key.
fn publication(
    alloc: Global,
    key: &str,
    body: PushBody,
    time: Timestamp,
) -> Result<Event, AllocError>
    ensures { IfOk result (λ event. event ≡ publication key.now body time) }
{
    let text = match Text::of(alloc, key) {
        Ok(text) => text,
        Err(why) => {
            drop(body);
            return Err(why);
        }
    };
    let update = Update {
        body,
        timestamp: Some(time),
        source: None,
        attachment: None,
    };
    let update = Shared::new(alloc, update)?;
    Ok(Event::Publish {
        destination: Locality::Any,
        key: KeyArg::Text(text),
        update,
        quality: PublicationQuality {
            qos: plain_qos(CongestionControl::Drop),
            reliable: true,
        },
    })
}

/// The quality of service of whoever asks for none, with that congestion control. Priority 5 is Zenoh's `Data`.
fn plain_qos(congestion: CongestionControl) -> QoSType
    ensures { result ≡ record { priority = 5; congestion = congestion; express = false } }
{
    QoSType {
        priority: 5,
        congestion,
        express: false,
    }
}

/// A get, unless it is refused.
fn get_line(alloc: Global, key: &str) -> Result<ReplicaLine, AllocError>
    ensures { IfOk result (λ line. line ≡ get_of key.now) }
{
    match question_refusal(key) {
        Some(refusal) => Ok(ReplicaLine::Refuse(refusal)),
        None => {
            let event = question(alloc, key)?;
            Ok(ReplicaLine::Take(event))
        }
    }
}

/// Why a get is refused.
fn question_refusal(key: &str) -> Option<ReplicaRefusal>
    ensures { result ≡ question_refusal key.now }
{
    match KeyExpr::new(key) {
        Ok(expression) => {
            drop(expression);
            None
        }
        Err(_) => Some(ReplicaRefusal::BadKeyExpr),
    }
}

/// A get of a key, which hands out the newest reply of each key.
fn question(alloc: Global, key: &str) -> Result<Event, AllocError>
    ensures { IfOk result (λ event. event ≡ question key.now) }
{
    let text = Text::of(alloc, key)?;
    let inquiry = Shared::new(alloc, plain_inquiry())?;
    Ok(Event::Get {
        key: KeyArg::Text(text),
        settings: QuerySettings {
            destination: Locality::Any,
            target: QueryTarget::BestMatching,
            consolidation: ConsolidationMode::Latest,
            timeout: None,
            qos: plain_qos(CongestionControl::Block),
            any_key: false,
        },
        inquiry,
        to: Chan::Print,
    })
}

/// What a get asks that has nothing but a key and can't be cancelled.
fn plain_inquiry() -> Inquiry
    ensures { result ≡ plain_inquiry }
{
    Inquiry {
        parameters: empty_text(),
        value: None,
        source: None,
        attachment: None,
        cancellation_token: None,
    }
}

/// The parameters of a selector that has no `?`.
fn empty_text() -> Text
    ensures { result ≡ [] }
{
    Text::empty()
}
