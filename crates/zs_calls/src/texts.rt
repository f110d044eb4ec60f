//! What is said of payloads, as events carry it.
ghost use Rattle.std.specs.Prelude.{◌≡◌, IfOk};
ghost use Rattle.zs_calls.specs.Gets.{value_of};

use std::alloc::{AllocError, Global};
use zs_events::default_encoding;
use zs_sample::{Encoding, Text, ZBytes};
use zs_wire::Value;

/// The text of an encoding, if one was named.
pub(crate) fn encoding_text(
    alloc: Global,
    encoding: &Option<Encoding>,
) -> Result<Option<Text>, AllocError>
    ensures { IfOk result (λ text. text ≡ encoding.now) }
{
    match encoding {
        Some(encoding) => Ok(Some(encoding.to_text(alloc)?)),
        None => Ok(None),
    }
}

/// The value of a get, which has one where a payload or an encoding was given.
pub(crate) fn value_of(
    alloc: Global,
    payload: Option<ZBytes>,
    encoding: &Option<Encoding>,
) -> Result<Option<Value>, AllocError>
    ensures { IfOk result (λ value. value ≡ value_of payload encoding.now) }
{
    let encoding = encoding_text(alloc, encoding)?;
    match payload {
        Some(payload) => match encoding {
            Some(encoding) => Ok(Some(Value { payload, encoding })),
            None => Ok(Some(Value {
                payload,
                encoding: default_encoding(),
            })),
        },
        None => match encoding {
            Some(encoding) => Ok(Some(Value {
                payload: ZBytes::new(),
                encoding,
            })),
            None => Ok(None),
        },
    }
}
