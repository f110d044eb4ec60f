//! Key expressions without a wild sign, which stand for one key alone.

ghost use Rattle.std.specs.Prelude.{◌≡◌, ◌&&◌, Some, None, if◌then◌else◌};
ghost use Rattle.zs_keys.specs.Plain.{is_plain, may_stand};
ghost use Rattle.zs_keys.specs.Text.{is_canonical};

use crate::canonical::is_canonical;

/// Whether the text has no wild sign.
pub(crate) fn is_plain(text: &str) -> bool
    ensures { result ≡ is_plain text.now }
{
    for &byte in text.as_bytes() {
        if matches!(byte, b'*' | b'$') {
            return false;
        }
    }
    true
}

/// Whether a canonical text without a wild sign may have the second byte behind the first.
fn may_stand(before: u8, byte: u8) -> bool
    ensures { result ≡ may_stand before byte }
{
    match byte {
        b'/' => before != b'/',
        b'*' | b'$' | b'#' | b'?' => false,
        _ => true,
    }
}

/// Whether the text is canonical and has no wild sign.
fn is_plain_key(text: &str) -> bool
    ensures { result ≡ (is_plain text.now && is_canonical text.now) }
{
    let mut before = b'/';
    for &byte in text.as_bytes() {
        if !may_stand(before, byte) {
            return false;
        }
        before = byte;
    }
    before != b'/'
}

/// Whether a canonical text has no wild sign, or `None` where the text is not canonical.
pub(crate) fn plainness(text: &str) -> Option<bool>
    ensures { result ≡ (if is_canonical text.now then Some (is_plain text.now) else None) }
{
    if is_plain_key(text) {
        return Some(true);
    }
    if !is_canonical(text) {
        return None;
    }
    Some(false)
}
