//! Where a walk goes on.

ghost use Rattle.std.specs.Prelude.{◌≡◌};
ghost use Rattle.zs_rows.specs.Behind.{start_of};

use std::ops::Bound;

/// The start of what is above a number, or of all.
pub(crate) fn start_behind(after: Option<u32>) -> Bound<u32>
    ensures { result ≡ start_of after }
{
    match after {
        Some(after) => Bound::Excluded(after),
        None => Bound::Unbounded,
    }
}
