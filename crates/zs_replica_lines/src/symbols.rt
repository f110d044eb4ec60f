//! The bytes and the moment of a write, each read from one field.

ghost use Rattle.std.specs.Prelude.{◌≡◌, IfOk};
ghost use Rattle.zs_parts.specs.Options.{timestamp_of};
ghost use Rattle.zs_parts.specs.Symbols.{payload_of};

use hex::FromHexError;
use std::alloc::{AllocError, Global};
use zs_bytes::ZBytes;
use zs_script::{parse_hex, parse_number};
use zs_wire::Timestamp;

/// `N:HEX`, a time and who took it.
pub(crate) fn parse_timestamp(text: &str) -> Option<Timestamp>
    ensures { result ≡ timestamp_of text.now }
{
    let (time, id) = text.split_once(':')?;
    let time = parse_number(u64::MAX, time.as_bytes())?;
    let id = parse_hex(id.as_bytes())?;
    Some(Timestamp { time, id })
}

/// Bytes: `x` and an even number of hexadecimal digits, of either case.
pub(crate) fn parse_payload(alloc: Global, field: &str) -> Result<Option<ZBytes>, AllocError>
    ensures { IfOk result (λ found. found ≡ payload_of field.now) }
{
    let [first, digits @ ..] = field.as_bytes() else {
        return Ok(None);
    };
    if *first != b'x' {
        return Ok(None);
    }
    match hex::decode(alloc, digits) {
        Ok(bytes) => Ok(Some(ZBytes::from_vec(alloc, bytes)?)),
        Err(FromHexError::OutOfMemory) => Err(AllocError),
        Err(_) => Ok(None),
    }
}
