//! Queriers, which share a network declaration by their keys.

ghost use Rattle.std.specs.Prelude.{◌≡◌, Some, true};
ghost use Rattle.zs_keys.specs.Key.{undeclared};
ghost use Rattle.zs_keys.specs.Text.{is_canonical};
ghost use Rattle.zs_model.specs.Queriers.{querier_declaration};

use zs_keys::{Declared, KeyExpr};
use zs_model::QuerierRow;

/// A querier's key, without a declaration.
pub fn key_of(row: &QuerierRow) -> KeyExpr<'_>
    ensures plain { result ≡ undeclared row.now.key.text }
    ensures canonical { is_canonical row.now.key.text ≡ true }
{
    let _canonical = row.key.as_str();
    row.key.as_keyexpr()
}

/// The declaration that a querier's key was named by.
pub fn querier_declaration(tag: u64, row: &QuerierRow) -> Option<Declared>
    ensures { result ≡ querier_declaration tag (Some row.now) }
{
    match row.prefix {
        Some(prefix) => Some(Declared {
            number: prefix.number,
            prefix_len: prefix.len,
            tag,
        }),
        None => None,
    }
}
