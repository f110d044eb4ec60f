//! What a group or a token answers to whoever asks it for a notifier.

use std::alloc::AllocError;
use std::process::Abort;
use std::sync::Wait;
use zs_gate::Notifier;

// The notifier, where one has to be given.
pub(crate) fn given<R: Abort>(rt: &R, answer: Result<Option<Notifier>, AllocError>) -> Notifier {
    answer.expect(rt, "memory").expect(rt, "a notifier")
}

// Whether none is given.
pub(crate) fn is_refused<R: Wait + Abort>(
    rt: &R,
    answer: Result<Option<Notifier>, AllocError>,
) -> bool {
    match answer.expect(rt, "memory") {
        Some(late) => {
            late.release(rt);
            false
        }
        None => true,
    }
}
