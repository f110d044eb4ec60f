//! What a key argument says by itself.

ghost use Rattle.std.specs.Prelude.{◌≡◌};
ghost use Rattle.zs_events.specs.Kinds.{is_nothing, is_blank, is_all_of, is_whole};

use zs_events::KeyArg;
use zs_sample::Text;
use zs_wire::WireExpr;

/// Whether a key argument is a declared number and nothing behind it.
pub fn is_whole(key: &KeyArg) -> bool
    ensures { result ≡ is_whole key.now }
{
    match key {
        KeyArg::Text(_) => false,
        KeyArg::Number { number: _, suffix } => is_nothing(suffix),
        KeyArg::Declared {
            text,
            prefix_len,
            ..
        } => is_all_of(text, *prefix_len),
    }
}

/// Whether a declaration of this length is one of the whole text.
pub fn is_all_of(text: &Text, prefix_len: u32) -> bool
    ensures { result ≡ is_all_of text.now prefix_len }
{
    text.as_str().len() == prefix_len as usize
}

/// Whether a wire expression names no key: it has no number and no text.
pub fn is_blank(wire: &WireExpr) -> bool
    ensures { result ≡ is_blank wire.now }
{
    wire.scope == 0 && is_nothing(&wire.suffix)
}

/// Whether a text is empty.
pub fn is_nothing(text: &Text) -> bool
    ensures { result ≡ is_nothing text.now }
{
    text.as_str().is_empty()
}
