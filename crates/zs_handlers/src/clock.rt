//! Moments of the runtime's clock.
use std::time::{Clock, Duration};

/// What is left until the moment. `None` once it has come, or where the clock can't be read.
pub(crate) fn left_of<R: Clock>(rt: &R, deadline: Duration) -> Option<Duration> {
    let left = deadline.checked_sub(rt.monotonic().ok()?)?;
    if left.is_zero() { None } else { Some(left) }
}

/// The moment after a span of milliseconds. Where the clock can't be read it has come already.
pub(crate) fn moment_after<R: Clock>(rt: &R, span: u64) -> Duration {
    rt.monotonic()
        .ok()
        .and_then(|now| now.checked_add(Duration::from_millis(span)))
        .unwrap_or(Duration::ZERO)
}
