//! The symbols that the forms of lines are made of, each read from one field.

ghost use Rattle.std.specs.Prelude.{◌≡◌, ◌==◌, Some, IfOk, option_map};
ghost use Rattle.std.specs.List.{before_first, after_first};
ghost use Rattle.zs_parts.specs.Parts.{selector_of};
ghost use Rattle.zs_parts.specs.Symbols.{number_of, u16_max, u32_max, locality_of, entity_kind_of, background_kind_of, parent_of, complete_of, history_of, is_colon, numbered_of, key_of, payload_of, after_prefix, scoped_of, wire_of, naming};

use crate::numbers::parse_number;
use hex::FromHexError;
use std::alloc::{AllocError, Global};
use zs_events::{BackgroundKind, EntityKind, KeyArg, ParentKind};
use zs_sample::{Locality, Text, ZBytes};
use zs_wire::{Mapping, WireExpr};

/// The greatest number of an entity, and of a declared key.
const U32_MAX: u64 = u32::MAX as u64;

const U16_MAX: u64 = u16::MAX as u64;

/// What stands behind a prefix.
pub fn after_prefix<'a>(field: &'a str, prefix: &str) -> Option<&'a str>
    ensures { option_map (λ rest. rest.now) result ≡ after_prefix prefix.now field.now }
{
    field.strip_prefix(prefix)
}

/// The number of an entity.
pub(crate) fn parse_id(digits: &str) -> Option<u32>
    ensures { result ≡ number_of u32_max digits.now }
{
    let number = parse_number(U32_MAX, digits.as_bytes())?;
    Some(number as u32)
}

/// The number of a declared key.
pub(crate) fn parse_key_number(digits: &str) -> Option<u16>
    ensures { result ≡ number_of u16_max digits.now }
{
    let number = parse_number(U16_MAX, digits.as_bytes())?;
    Some(number as u16)
}

/// A word for the origin of a subscriber, or the destination of a publication.
pub(crate) fn parse_locality(field: &str) -> Option<Locality>
    ensures { result ≡ locality_of field.now }
{
    match field {
        "any" => Some(Locality::Any),
        "local" => Some(Locality::SessionLocal),
        "remote" => Some(Locality::Remote),
        _ => None,
    }
}

/// A word for what can be undeclared by its number.
pub fn parse_entity_kind(field: &str) -> Option<EntityKind>
    ensures { result ≡ entity_kind_of field.now }
{
    match field {
        "sub" => Some(EntityKind::Sub),
        "pub" => Some(EntityKind::Pub),
        "queryable" => Some(EntityKind::Queryable),
        "querier" => Some(EntityKind::Querier),
        "listener" => Some(EntityKind::Listener),
        "token" => Some(EntityKind::Token),
        "lsub" => Some(EntityKind::Lsub),
        _ => None,
    }
}

/// A word for what can be left to itself.
pub(crate) fn parse_background_kind(field: &str) -> Option<BackgroundKind>
    ensures { result ≡ background_kind_of field.now }
{
    match field {
        "sub" => Some(BackgroundKind::Sub),
        "queryable" => Some(BackgroundKind::Queryable),
        "listener" => Some(BackgroundKind::Listener),
        "lsub" => Some(BackgroundKind::Lsub),
        _ => None,
    }
}

/// A word for whose matching is asked for.
pub(crate) fn parse_parent(field: &str) -> Option<ParentKind>
    ensures { result ≡ parent_of field.now }
{
    match field {
        "pub" => Some(ParentKind::Pub),
        "querier" => Some(ParentKind::Querier),
        _ => None,
    }
}

/// A word for whether a liveliness subscriber is told of what lives already.
pub(crate) fn parse_history(field: &str) -> Option<bool>
    ensures { result ≡ history_of field.now }
{
    match field {
        "history" => Some(true),
        "live" => Some(false),
        _ => None,
    }
}

/// A word for whether a queryable has all that is there.
pub(crate) fn parse_complete(field: &str) -> Option<bool>
    ensures { result ≡ complete_of field.now }
{
    match field {
        "complete" => Some(true),
        "partial" => Some(false),
        _ => None,
    }
}

/// A key: a declared number where the field has that form, and else a text.
pub(crate) fn parse_key(alloc: Global, field: &str) -> Result<KeyArg, AllocError>
    ensures { IfOk result (λ key. key ≡ key_of field.now) }
{
    if let Some(key) = parse_numbered(alloc, field)? {
        return Ok(key);
    }
    Ok(KeyArg::Text(Text::of(alloc, field)?))
}

/// A key, and the parameters behind its first `?`.
pub(crate) fn parse_selector(alloc: Global, field: &str) -> Result<(KeyArg, Text), AllocError>
    ensures { IfOk result (λ found. found ≡ selector_of field.now) }
{
    let (key, parameters) = cut_at_question(field);
    let key = parse_key(alloc, key)?;
    Ok((key, Text::of(alloc, parameters)?))
}

/// What stands before the first `?`, and what behind it; all and nothing where there is none.
fn cut_at_question(text: &str) -> (&str, &str)
    ensures before { result.0.now ≡ before_first (λ b. b == 63) text.now }
    ensures behind { result.1.now ≡ after_first (λ b. b == 63) text.now }
{
    match text.split_once('?') {
        Some((before, behind)) => (before, behind),
        None => (text, ""),
    }
}

/// `#N` or `#N:TEXT`
fn parse_numbered(alloc: Global, field: &str) -> Result<Option<KeyArg>, AllocError>
    ensures { IfOk result (λ found. found ≡ numbered_of field.now) }
{
    let Some(rest) = after_prefix(field, "#") else {
        return Ok(None);
    };
    let (digits, suffix) = cut_at_colon(rest);
    let Some(number) = parse_key_number(digits) else {
        return Ok(None);
    };
    let suffix = Text::of(alloc, suffix)?;
    Ok(Some(KeyArg::Number { number, suffix }))
}

/// What stands before the first colon, and what behind it; all and nothing where there is none.
fn cut_at_colon(text: &str) -> (&str, &str)
    ensures before { result.0.now ≡ before_first is_colon text.now }
    ensures behind { result.1.now ≡ after_first is_colon text.now }
{
    match text.split_once(':') {
        Some((before, behind)) => (before, behind),
        None => (text, ""),
    }
}

/// Bytes: `x` and an even number of hexadecimal digits, of either case.
pub(crate) fn parse_payload(alloc: Global, field: &str) -> Result<Option<ZBytes>, AllocError>
    ensures { IfOk result (λ found. found ≡ payload_of field.now) }
{
    let [first, digits @ ..] = field.as_bytes() else {
        return Ok(None);
    };
    if *first != b'x' {
        return Ok(None);
    }
    match hex::decode(alloc, digits) {
        Ok(bytes) => Ok(Some(ZBytes::from_vec(alloc, bytes)?)),
        Err(FromHexError::OutOfMemory) => Err(AllocError),
        Err(_) => Ok(None),
    }
}

/// A wire expression: `s` or `r`, and the rest.
pub(crate) fn parse_wire(alloc: Global, field: &str) -> Result<Option<WireExpr>, AllocError>
    ensures { IfOk result (λ found. found ≡ wire_of field.now) }
{
    if let Some(rest) = after_prefix(field, "s") {
        return parse_scoped(alloc, Mapping::Sender, rest);
    }
    if let Some(rest) = after_prefix(field, "r") {
        return parse_scoped(alloc, Mapping::Receiver, rest);
    }
    Ok(None)
}

/// `N:TEXT`, behind the mapping.
fn parse_scoped(alloc: Global, mapping: Mapping, rest: &str) -> Result<Option<WireExpr>, AllocError>
    ensures { IfOk result (λ found. found ≡ scoped_of mapping rest.now) }
{
    let Some((digits, suffix)) = rest.split_once(':') else {
        return Ok(None);
    };
    let Some(scope) = parse_key_number(digits) else {
        return Ok(None);
    };
    let suffix = Text::of(alloc, suffix)?;
    Ok(Some(WireExpr {
        scope,
        suffix,
        mapping,
    }))
}

/// A wire expression, if it names something.
pub(crate) fn naming(wire: WireExpr) -> Option<WireExpr>
    ensures { result ≡ naming (Some wire) }
{
    if wire.scope == 0 && wire.suffix.is_empty() {
        return None;
    }
    Some(wire)
}
