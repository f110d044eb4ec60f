//! Hexadecimal digits behind a text.

ghost use Rattle.std.specs.Prelude.{◌≡◌, ◌<◌, ◌++◌, OnOk};
ghost use Rattle.std.specs.List.{flat_map};
ghost use Rattle.std.specs.String.{string_bytes};
ghost use Rattle.zs_printing.specs.Words.{hex_digit, hex_digits, hex_text, byte_digits, bytes_text};

use std::alloc::AllocError;
use zs_sample::ZBytes;

/// Puts a number behind a text, in hexadecimal digits of lower case.
pub fn append_hex(out: &mut String, number: u128) -> Result<(), AllocError>
    ensures { OnOk result (string_bytes out.new ≡ string_bytes out.old ++ hex_text number) }
{
    append_hex_digits(out, 32, number)
}

/// The last `places` digits of a number, without zeros before its first one. No `u128` has more than 32.
#[tactic(auto, using(crate::proofs::HexDigits::digit_steps))]
fn append_hex_digits(out: &mut String, places: u32, number: u128) -> Result<(), AllocError>
    ensures { OnOk result (string_bytes out.new ≡ string_bytes out.old ++ hex_digits places number) }
{
    if places == 0 {
        return Ok(());
    }
    let last = hex_digit((number % 16) as u8);
    if number < 16 {
        return out.push(last);
    }
    append_hex_digits(out, places - 1, number / 16)?;
    out.push(last)
}

/// Puts bytes behind a text: `x`, and two hexadecimal digits of lower case for each.
pub fn append_bytes(out: &mut String, bytes: &ZBytes) -> Result<(), AllocError>
    ensures { OnOk result (string_bytes out.new ≡ string_bytes out.old ++ bytes_text bytes.now) }
{
    out.push('x')?;
    let mut slices = bytes.slices();
    'slices: while let Some(slice) = slices.next() {
        append_slice(out, slice)?;
    }
    Ok(())
}

/// Two digits for each byte of a slice, with nothing between them.
fn append_slice(out: &mut String, bytes: &[u8]) -> Result<(), AllocError>
    ensures { OnOk result (string_bytes out.new ≡ string_bytes out.old ++ flat_map byte_digits bytes.now) }
{
    for byte in bytes {
        append_byte(out, *byte)?;
    }
    Ok(())
}

/// The two digits of a byte, the higher one first.
fn append_byte(out: &mut String, byte: u8) -> Result<(), AllocError>
    ensures { OnOk result (string_bytes out.new ≡ string_bytes out.old ++ byte_digits byte) }
{
    out.push(hex_digit(byte / 16))?;
    out.push(hex_digit(byte % 16))
}

/// A digit below 16, in lower case.
fn hex_digit(digit: u8) -> char
    requires { digit < 16 }
    ensures value { result ≡ hex_digit digit }
    ensures small { result < 128 }
{
    if digit < 10 {
        char::from(b'0' + digit)
    } else {
        char::from(b'a' - 10 + digit)
    }
}
