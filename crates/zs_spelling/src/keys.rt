//! Keys are spelled with characters.

ghost use Rattle.std.specs.Prelude.{◌≡◌, true};
ghost use Rattle.std.specs.Str.{all_scalars};
ghost use Rattle.std.specs.Option.{IfSome};
ghost use Rattle.zs_laws.specs.Spelled.{IsSpelledArgument};

use zs_events::KeyArg;
use zs_sample::Text;
use zs_wire::WireExpr;

/// Looks at a text as UTF-8. Nothing comes of it but that it is known to be spelled with characters.
fn spell_text(text: &Text)
    ensures { all_scalars text.now ≡ true }
{
    let _text = text.as_str();
}

/// Looks at a key argument.
pub(crate) fn spell_argument(key: &KeyArg)
    ensures { IsSpelledArgument key.now }
{
    match key {
        KeyArg::Text(text) => spell_text(text),
        KeyArg::Number { suffix, .. } => spell_text(suffix),
        KeyArg::Declared { text, .. } => spell_text(text),
    }
}

/// Looks at the key that a message has.
pub(crate) fn spell_wire(wire: &WireExpr)
    ensures { all_scalars wire.now.suffix ≡ true }
{
    spell_text(&wire.suffix);
}

/// Looks at the key that a message has, if it has one.
pub(crate) fn spell_some_wire(wire: &Option<WireExpr>)
    ensures { IfSome wire.now (λ wire. all_scalars wire.suffix ≡ true) }
{
    if let Some(wire) = wire {
        spell_wire(wire);
    }
}
