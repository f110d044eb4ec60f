//! What the two ends of a channel share.
ghost use Rattle.std.specs.Prelude.{◌≡◌, IfOk};
ghost use Rattle.std.specs.Arc.{arc_value};

use std::alloc::{AllocError, Global};
use std::sync::Arc;

/// The value, to be shared.
pub(crate) fn share<S: Drop>(alloc: Global, value: S) -> Result<Arc<S, Global>, AllocError>
    ensures { IfOk result (λ shared. arc_value shared ≡ value) }
{
    Ok(Arc::new(alloc, value)?)
}
