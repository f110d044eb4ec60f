//! Texts and bytes.

ghost use Rattle.std.specs.Prelude.{◌≡◌, nat_lt, true};
ghost use Rattle.std.specs.List.{AllByRecursion};
ghost use Rattle.std.specs.Str.{all_scalars};
ghost use Rattle.zs_event_lines.specs.Sayable.{are_bytes, if_there};

use zs_sample::{Text, ZBytes};

/// Looks at a text: it has characters.
pub(crate) fn type_text(text: &Text)
    ensures { all_scalars text.now ≡ true }
{
    let _text = text.as_str();
}

/// Looks at a text, if there is one.
pub(crate) fn type_some_text(text: &Option<Text>)
    ensures { if_there all_scalars text.now ≡ true }
{
    if let Some(text) = text {
        type_text(text);
    }
}

/// Looks at one byte of a payload.
fn type_byte(byte: u8)
    ensures { nat_lt byte 256 ≡ true }
{
    let _ = byte;
}

/// Looks at each byte of one slice of a payload.
fn type_slice(bytes: &[u8])
    ensures { AllByRecursion (λ b. nat_lt b 256 ≡ true) bytes.now }
{
    for byte in bytes {
        type_byte(*byte);
    }
}

/// Looks at the bytes of a payload.
pub(crate) fn type_bytes(bytes: &ZBytes)
    ensures { are_bytes bytes.now ≡ true }
{
    let mut slices = bytes.slices();
    'slices: while let Some(slice) = slices.next() {
        type_slice(slice);
    }
}

/// Looks at the bytes of a payload, if there is one.
pub(crate) fn type_some_bytes(bytes: &Option<ZBytes>)
    ensures { if_there are_bytes bytes.now ≡ true }
{
    if let Some(bytes) = bytes {
        type_bytes(bytes);
    }
}
