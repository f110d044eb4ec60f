//! The keys under which entities share one declaration to the network.

ghost use Rattle.std.specs.Prelude.{◌≡◌, None};
ghost use Rattle.std.specs.Option.{option_copied};
ghost use Rattle.zs_keys.specs.Matching.{includes};
ghost use Rattle.zs_model.specs.Groups.{aggregate_of, share_text};

use crate::key_list::KeyList;
use zs_keys::KeyExpr;

/// The text by which entities on that key share a declaration: the first of these keys that includes it, else its own.
pub fn share_text<'a>(aggregates: &'a KeyList, key: &'a KeyExpr<'_>) -> &'a str
    ensures { result.now ≡ share_text aggregates.now key.now.text }
{
    match aggregate_of(aggregates.as_slice(), key) {
        Some(aggregate) => aggregate.as_str(),
        None => key.as_str(),
    }
}

/// The first of these keys that includes that one, if one does.
pub fn aggregate_of<'a>(
    aggregates: &'a [KeyExpr<'static>],
    key: &KeyExpr<'_>,
) -> Option<&'a KeyExpr<'static>>
    ensures { option_copied result ≡ aggregate_of aggregates.now key.now.text }
{
    aggregates.iter().find(|aggregate| aggregate.includes(key))
}
