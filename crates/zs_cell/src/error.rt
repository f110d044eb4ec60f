//! Why a call of a shared session did not do what it was asked.

use std::sync::Arc;
use thiserror::Error;
use zs_events::Refusal;
use zs_keys::KeyExpr;

/// Why a call did not do what it was asked.
#[derive(Clone, Copy, Debug, PartialEq, Eq, Hash, Error)]
pub enum SessionError {
    /// The session took the event and refused it.
    #[error("the session refused it: {0}")]
    Refused(Refusal),
    /// A value of another session was handed in. No event was taken.
    #[error("it is of another session")]
    OtherSession,
    /// Want of memory. No event was taken.
    #[error("out of memory")]
    NoMemory,
}

/// Why an event was refused or not taken, with the handler that came with it.
#[derive(Drop)]
pub struct NotSubmitted<H> {
    pub why: SessionError,
    pub handler: Option<Arc<H>>,
}

/// Why a key was not given back, with the key.
#[derive(Drop)]
pub struct KeyBack<'a> {
    pub why: SessionError,
    pub key: KeyExpr<'a>,
}
