//! What can go wrong in a test of calls that wait, as one error.
use std::alloc::AllocError;
use thiserror::Error;
use zs_cell::{NotSubmitted, SessionError};

/// What can go wrong.
#[derive(Debug, Drop, Error)]
pub(crate) enum Trouble {
    #[error("the session didn't do it: {0:?}")]
    Session(SessionError),
    #[error("out of memory")]
    Memory(#[from] AllocError),
    #[error("a call answered out of order, or not at all")]
    Order,
}

impl From<SessionError> for Trouble {
    /// A session's error as it is.
    fn from(why: SessionError) -> Trouble {
        Trouble::Session(why)
    }
}

impl<H: Drop> From<NotSubmitted<H>> for Trouble {
    /// Why an event wasn't taken; the handler that came back is dropped.
    fn from(back: NotSubmitted<H>) -> Trouble {
        Trouble::Session(back.why)
    }
}
