//! Which texts a field can hold.

ghost use Rattle.std.specs.Prelude.{◌≡◌, ◌==◌, not};
ghost use Rattle.std.specs.List.{list_all, before_first};
ghost use Rattle.zs_parts.specs.Symbols.{is_colon, numbered_of};
ghost use Rattle.zs_script.specs.Plain.{is_plain, is_plain_text};
ghost use Rattle.zs_event_lines.specs.Sayable.{is_missing, says_encoding};

use zs_sample::Text;
use zs_script::{after_prefix, parse_number};

/// Whether a text's bytes have no tab and no line feed.
fn is_plain(text: &str) -> bool
    ensures { result ≡ is_plain text.now }
{
    text.as_bytes()
        .iter()
        .all(|byte| *byte != b'\t' && *byte != b'\n')
}

/// The same of a text.
pub(crate) fn is_plain_text(text: &Text) -> bool
    ensures { result ≡ is_plain_text text.now }
{
    is_plain(text.as_str())
}

/// Whether there is no question mark in it.
pub(crate) fn has_no_question(text: &str) -> bool
    ensures { result ≡ list_all (λ b. not (b == 63)) text.now }
{
    text.as_bytes().iter().all(|byte| *byte != b'?')
}

/// Whether an encoding can be said.
pub(crate) fn says_encoding(text: &Text) -> bool
    ensures { result ≡ says_encoding text.now }
{
    !text.is_empty() && is_plain_text(text)
}

/// Whether a text has not the form of a declared number.
pub(crate) fn is_unnumbered(text: &str) -> bool
    ensures { result ≡ is_missing (numbered_of text.now) }
{
    let Some(rest) = after_prefix(text, "#") else {
        return true;
    };
    match parse_number(65535, before_colon(rest).as_bytes()) {
        Some(_) => false,
        None => true,
    }
}

/// What stands before the first colon; all where there is none.
fn before_colon(text: &str) -> &str
    ensures { result.now ≡ before_first is_colon text.now }
{
    match text.split_once(':') {
        Some((before, _)) => before,
        None => text,
    }
}
