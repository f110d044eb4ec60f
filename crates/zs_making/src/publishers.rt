//! The key of a publisher, and how it was named.

ghost use Rattle.std.specs.Prelude.{◌≡◌, true, IfOk};
ghost use Rattle.zs_model.specs.Publishers.{prefix_of};
ghost use Rattle.zs_keys.specs.Key.{undeclared};
ghost use Rattle.zs_keys.specs.Text.{is_canonical};

use std::alloc::AllocError;
use zs_events::KeyArg;
use zs_keys::KeyExpr;
use zs_model::{Prefix, PubRow};

/// A publisher's key, without a declaration.
pub fn key_of(row: &PubRow) -> KeyExpr<'_>
    ensures plain { result ≡ undeclared row.now.key.text }
    ensures canonical { is_canonical row.now.key.text ≡ true }
{
    let _canonical = row.key.as_str();
    row.key.as_keyexpr()
}

/// The declared part of a key, if it is named by one. One that is too long for a declaration is want of memory.
pub fn prefix_of(key: &KeyArg, resolved: &KeyExpr<'_>) -> Result<Option<Prefix>, AllocError>
    ensures { IfOk result (λ prefix. prefix ≡ prefix_of key.now resolved.now.text) }
{
    match key {
        KeyArg::Text(_) => Ok(None),
        KeyArg::Number { number, suffix } => {
            let front = resolved
                .as_str()
                .len()
                .saturating_sub(suffix.as_str().len());
            let Ok(len) = u32::try_from(front) else {
                return Err(AllocError);
            };
            Ok(Some(Prefix {
                number: *number,
                len,
            }))
        }
        KeyArg::Declared {
            number,
            prefix_len,
            ..
        } => Ok(Some(Prefix {
            number: *number,
            len: *prefix_len,
        })),
    }
}
