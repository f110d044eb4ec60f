//! The words for channels.

ghost use Rattle.std.specs.Prelude.{◌≡◌};
ghost use Rattle.zs_parts.specs.Channels.{size_of, channel_of, channel_kind_of};

use crate::numbers::parse_number;
use crate::symbols::after_prefix;
use zs_events::{Chan, Kind};

/// The greatest size of a channel.
const SIZE_MAX: u64 = u16::MAX as u64;

/// A channel's size, which isn't 0.
fn parse_size(digits: &str) -> Option<u32>
    ensures { result ≡ size_of digits.now }
{
    let number = parse_number(SIZE_MAX, digits.as_bytes())? as u32;
    if number < 1 {
        return None;
    }
    Some(number)
}

/// `print`, `fifo:N` or `ring:N`
pub(crate) fn parse_channel(text: &str) -> Option<Chan>
    ensures { result ≡ channel_of text.now }
{
    if text == "print" {
        return Some(Chan::Print);
    }
    if let Some(digits) = after_prefix(text, "fifo:") {
        return Some(Chan::Fifo(parse_size(digits)?));
    }
    if let Some(digits) = after_prefix(text, "ring:") {
        return Some(Chan::Ring(parse_size(digits)?));
    }
    None
}

/// A word for what can have a channel.
pub(crate) fn parse_channel_kind(field: &str) -> Option<Kind>
    ensures { result ≡ channel_kind_of field.now }
{
    match field {
        "sub" => Some(Kind::Subscriber),
        "get" => Some(Kind::Get),
        "lget" => Some(Kind::LivelinessGet),
        _ => None,
    }
}
