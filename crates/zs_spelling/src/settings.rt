//! The aggregated keys of settings are UTF-8.

ghost use Rattle.std.specs.List.{AllByRecursion};
ghost use Rattle.std.specs.Str.{IsUtf8};
ghost use Rattle.zs_model.specs.Received.{AreSpelled};

use zs_model::{KeyList, Settings};

/// Looks at the aggregated keys of settings. Nothing comes of it but that their texts are known to be UTF-8.
pub fn spell_settings(settings: &Settings)
    ensures { AreSpelled settings.now }
{
    spell_keys(&settings.aggregated_subscribers);
    spell_keys(&settings.aggregated_publishers);
}

/// Looks at each key of a list, whose text is then known to be UTF-8.
fn spell_keys(keys: &KeyList)
    ensures { AllByRecursion (λ key. IsUtf8 key.text) keys.now }
{
    for key in keys.as_slice() {
        let _text = key.as_str();
    }
}
