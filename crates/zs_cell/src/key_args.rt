//! Keys, as the events of a session name them.
ghost use Rattle.std.specs.Prelude.{◌≡◌, IfOk};
ghost use Rattle.zs_cell.specs.Keys.{key_arg};

use std::alloc::{AllocError, Global};
use zs_events::KeyArg;
use zs_keys::KeyExpr;
use zs_sample::Text;

/// A key as a session of that tag is given it: with its number, where that session declared it.
///
/// # Errors
///
/// Want of memory alone.
pub fn key_arg(alloc: Global, tag: u64, key: &KeyExpr<'_>) -> Result<KeyArg, AllocError>
    ensures { IfOk result (λ made. made ≡ key_arg tag key.now) }
{
    let text = Text::of(alloc, key.as_str())?;
    match key.declaration() {
        Some(declared) => {
            if declared.tag == tag {
                Ok(KeyArg::Declared {
                    text,
                    number: declared.number,
                    prefix_len: declared.prefix_len,
                })
            } else {
                Ok(KeyArg::Text(text))
            }
        }
        None => Ok(KeyArg::Text(text)),
    }
}
