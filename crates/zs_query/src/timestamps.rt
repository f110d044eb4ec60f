//! The order of timestamps that may be absent.

ghost use Rattle.std.specs.Prelude.{◌≡◌};
ghost use Rattle.std.specs.Option.{option_copied};
ghost use Rattle.zs_query.specs.Marks.{is_below, is_earlier};

use zs_sample::Timestamp;

/// Whether a timestamp is below another. None is below any.
pub(crate) fn is_below(a: Option<&Timestamp>, b: Option<&Timestamp>) -> bool
    ensures { result ≡ is_below (option_copied a.entry) (option_copied b.entry) }
{
    match (a, b) {
        (Some(a), Some(b)) => is_earlier(a, b),
        (None, Some(_)) => true,
        (_, None) => false,
    }
}

/// Whether a timestamp is below another: by the time, and at one time by the id of the clock.
fn is_earlier(a: &Timestamp, b: &Timestamp) -> bool
    ensures { result ≡ is_earlier a.now b.now }
{
    a.time < b.time || a.time == b.time && a.id < b.id
}
