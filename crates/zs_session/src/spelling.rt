//! The texts of keys are UTF-8.

ghost use Rattle.std.specs.Prelude.{◌≡◌, map, Some};
ghost use Rattle.std.specs.List.{AllByRecursion};
ghost use Rattle.std.specs.Str.{IsUtf8};
ghost use Rattle.std.specs.String.{string_bytes};
ghost use Rattle.zs_core.specs.Types.{Settings};
ghost use Rattle.zs_core.specs.Received.{AreSpelled};
ghost use Rattle.zs_session.specs.Words.{link_of, values};

use crate::words::value_in;
use zs_core::{KeyList, Settings};

/// Looks at the texts of the aggregates. Nothing comes of it but that they are known to be UTF-8.
pub(crate) fn spell_aggregates(settings: &Settings)
    ensures { AreSpelled settings.now }
{
    spell_keys(&settings.aggregated_subscribers);
    spell_keys(&settings.aggregated_publishers);
}

/// Looks at the text of each key of a list. All that comes of it is that these are known to be UTF-8.
fn spell_keys(keys: &KeyList)
    ensures { AllByRecursion (λ key. IsUtf8 key.text) keys.now }
{
    for key in keys.as_slice() {
        let _text = key.as_str();
    }
}

/// Looks at the words. Nothing comes of it but that the texts of the aggregates that they give are known to be UTF-8.
pub(crate) fn spell_words(words: &[String])
    ensures { (s : Settings) → link_of (map string_bytes words.now) ≡ Some s → AreSpelled s }
{
    spell_values(words, "aggsub=");
    spell_values(words, "aggpub=");
}

/// Looks at the values of the words that begin with this name.
fn spell_values(words: &[String], name: &str)
    ensures { AllByRecursion IsUtf8 (values name.now (map string_bytes words.now)) }
{
    let mut words = words;
    'words: while let Some((_text, rest)) = value_in(words, name) {
        words = rest;
    }
}
