//! Keys that outlive what they were read from.

ghost use Rattle.std.specs.Prelude.{◌≡◌, IfOk};

use std::alloc::{AllocError, Global};
use zs_keys::KeyExpr;

/// A key in memory of its own.
pub fn into_owned(alloc: Global, key: KeyExpr<'_>) -> Result<KeyExpr<'static>, AllocError>
    ensures { IfOk result (λ owned. owned ≡ key.entry) }
{
    match key.into_owned(alloc) {
        Ok(owned) => Ok(owned),
        Err(_) => Err(AllocError),
    }
}
