//! Numbers in decimal and in hexadecimal digits.

ghost use Rattle.std.specs.Prelude.{◌≡◌, ◌≤◌, ◌<◌, length, IfSome};
ghost use Rattle.zs_parts.specs.Symbols.{number_from, number_of};
ghost use Rattle.zs_parts.specs.Hexadecimal.{digit_of, hex_from, hex_of};

/// How many hexadecimal digits a number has at most.
const MOST_DIGITS: usize = 32;

/// A number in decimal digits, at most `max`. It has no sign and does not begin with a zero that could go.
pub fn parse_number(max: u64, field: &[u8]) -> Option<u64>
    ensures number { result ≡ number_of max field.now }
    ensures small { IfSome result (λ n. n ≤ max) }
{
    match field {
        [] | [b'0', _, ..] => None,
        _ => parse_digits(max, field),
    }
}

/// The number that digits write, zeros in front or not. There is none where a byte is no digit, or the number is above
/// `max`.
fn parse_digits(max: u64, digits: &[u8]) -> Option<u64>
    ensures number { result ≡ number_from max 0 digits.now }
    ensures small { IfSome result (λ n. n ≤ max) }
{
    let most = u128::from(max);
    let mut number = 0;
    for digit in digits {
        if !digit.is_ascii_digit() || number > most {
            return None;
        }
        number = 10 * number + u128::from(*digit - b'0');
    }
    if number > most {
        return None;
    }
    Some(number as u64)
}

/// A number in at most 32 hexadecimal digits of either case, which are all that its type has room for. It does not
/// begin with a zero that could go.
pub fn parse_hex(field: &[u8]) -> Option<u128>
    ensures { result ≡ hex_of field.now }
{
    match field {
        [] | [b'0', _, ..] => None,
        _ if field.len() > MOST_DIGITS => None,
        _ => parse_hex_digits(field),
    }
}

/// The number that hexadecimal digits write, of which none is lost. There is none where a byte is no digit.
fn parse_hex_digits(digits: &[u8]) -> Option<u128>
    requires { length digits.now ≤ 32 }
    ensures { result ≡ hex_from 0 digits.now }
{
    let mut number = 0;
    for digit in digits {
        number = 16 * number + u128::from(parse_hex_digit(*digit)?);
    }
    Some(number)
}

/// The value of a digit of either case.
fn parse_hex_digit(digit: u8) -> Option<u8>
    ensures value { result ≡ digit_of digit }
    ensures small { IfSome result (λ value. value < 16) }
{
    match digit {
        b'0'..=b'9' => Some(digit - b'0'),
        b'a'..=b'f' => Some(digit - b'a' + 10),
        b'A'..=b'F' => Some(digit - b'A' + 10),
        _ => None,
    }
}
