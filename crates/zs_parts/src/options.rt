//! The values of options, each read from the text behind its name.

ghost use Rattle.std.specs.Prelude.{◌≡◌, [], IfOk, Some, option_and_then};
ghost use Rattle.zs_parts.specs.Options.{timestamp_of, entity_of, two_numbers_of, source_of, encoding_text_of, is_default, named_encoding, priority_of, congestion_of, flag_of, target_of, consolidation_of, any_key_of, value_of};

use crate::numbers::{parse_hex, parse_number};
use crate::symbols::parse_id;
use std::alloc::{AllocError, Global};
use zs_events::default_encoding;
use zs_sample::{ConsolidationMode, QueryTarget, Text, ZBytes};
use zs_wire::{CongestionControl, EntityGlobalId, SourceInfo, Timestamp, Value};

/// `N:HEX`, a time and who took it.
pub(crate) fn parse_timestamp(text: &str) -> Option<Timestamp>
    ensures { result ≡ timestamp_of text.now }
{
    let (time, id) = text.split_once(':')?;
    let time = parse_number(u64::MAX, time.as_bytes())?;
    let id = parse_hex(id.as_bytes())?;
    Some(Timestamp { time, id })
}

/// `HEX:N`, a session and an entity of it.
pub(crate) fn parse_entity(text: &str) -> Option<EntityGlobalId>
    ensures { result ≡ entity_of text.now }
{
    let (zid, eid) = text.split_once(':')?;
    let zid = parse_hex(zid.as_bytes())?;
    let eid = parse_id(eid)?;
    Some(EntityGlobalId { zid, eid })
}

/// `N:N`
fn parse_two_numbers(text: &str) -> Option<(u32, u32)>
    ensures { result ≡ two_numbers_of text.now }
{
    let (first, second) = text.split_once(':')?;
    let first = parse_id(first)?;
    let second = parse_id(second)?;
    Some((first, second))
}

/// `HEX:N:N`, a session, an entity of it, and a number in a sequence.
pub(crate) fn parse_source(text: &str) -> Option<SourceInfo>
    ensures { result ≡ source_of text.now }
{
    let (zid, numbers) = text.split_once(':')?;
    let zid = parse_hex(zid.as_bytes())?;
    let (eid, source_sn) = parse_two_numbers(numbers)?;
    Some(SourceInfo {
        source_id: EntityGlobalId { zid, eid },
        source_sn,
    })
}

/// A text without a character.
pub(crate) fn empty_text() -> Text
    ensures { result ≡ [] }
{
    Text::empty()
}

/// An encoding: the empty text is the default.
#[tactic(auto, using(crate::proofs::Encodings::encodings))]
pub(crate) fn parse_encoding(alloc: Global, text: &str) -> Result<Text, AllocError>
    ensures { IfOk result (λ encoding. encoding_text_of text.now ≡ Some encoding) }
{
    let named = Text::of(alloc, text)?;
    if named.is_empty() {
        return Ok(default_encoding());
    }
    Ok(named)
}

/// Whether it is the encoding where none is named.
pub fn is_default(encoding: &Text) -> bool
    ensures { result ≡ is_default encoding.now }
{
    encoding.as_str() == "zenoh/bytes"
}

/// An encoding, unless it is the default one.
pub(crate) fn other_encoding(named: Option<Text>) -> Option<Text>
    ensures { result ≡ option_and_then named_encoding named }
{
    let encoding = named?;
    if is_default(&encoding) {
        drop(encoding);
        return None;
    }
    Some(encoding)
}

/// A priority, from the least number that may stand there to 7.
pub(crate) fn parse_priority(least: u8, text: &str) -> Option<u8>
    ensures { result ≡ priority_of least text.now }
{
    let number = parse_number(7, text.as_bytes())? as u8;
    if number < least {
        return None;
    }
    Some(number)
}

/// A word for what happens where a queue is full.
pub(crate) fn parse_congestion(text: &str) -> Option<CongestionControl>
    ensures { result ≡ congestion_of text.now }
{
    match text {
        "drop" => Some(CongestionControl::Drop),
        "block" => Some(CongestionControl::Block),
        _ => None,
    }
}

/// A flag's digit.
pub(crate) fn parse_flag(text: &str) -> Option<bool>
    ensures { result ≡ flag_of text.now }
{
    match text {
        "0" => Some(false),
        "1" => Some(true),
        _ => None,
    }
}

/// A word for whom a query reaches.
pub(crate) fn parse_target(text: &str) -> Option<QueryTarget>
    ensures { result ≡ target_of text.now }
{
    match text {
        "best" => Some(QueryTarget::BestMatching),
        "all" => Some(QueryTarget::All),
        "allcomplete" => Some(QueryTarget::AllComplete),
        _ => None,
    }
}

/// A word for which replies of a query are kept.
pub(crate) fn parse_consolidation(text: &str) -> Option<ConsolidationMode>
    ensures { result ≡ consolidation_of text.now }
{
    match text {
        "auto" => Some(ConsolidationMode::Auto),
        "none" => Some(ConsolidationMode::None),
        "monotonic" => Some(ConsolidationMode::Monotonic),
        "latest" => Some(ConsolidationMode::Latest),
        _ => None,
    }
}

/// The word by which a query takes replies on any key.
pub(crate) fn parse_any_key(text: &str) -> Option<bool>
    ensures { result ≡ any_key_of text.now }
{
    match text {
        "any" => Some(true),
        _ => None,
    }
}

/// A value, where its payload or its encoding is given: the other is then empty or the default.
pub(crate) fn value_of(payload: Option<ZBytes>, encoding: Option<Text>) -> Option<Value>
    ensures { result ≡ value_of payload encoding }
{
    match (payload, encoding) {
        (None, None) => None,
        (None, Some(encoding)) => Some(Value {
            payload: ZBytes::new(),
            encoding,
        }),
        (Some(payload), None) => Some(Value {
            payload,
            encoding: default_encoding(),
        }),
        (Some(payload), Some(encoding)) => Some(Value { payload, encoding }),
    }
}
