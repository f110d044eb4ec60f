//! What can go wrong.
use std::alloc::AllocError;
use std::io;
use thiserror::Error;
use zs_bytes::TextError;
use zs_cell::{NotSubmitted, SessionError};
use zs_handlers::ChannelError;
use zs_keys::KeyError;

/// Why the program ends before its end: what a call of the session, a channel, a key or the standard library answered, or
/// that something else came than what the example is about.
#[derive(Debug, Drop, Error)]
pub(crate) enum Trouble {
    #[error("{0}")]
    Session(#[from] SessionError),
    #[error("{0}")]
    Channel(#[from] ChannelError),
    #[error("{0}")]
    Key(#[from] KeyError),
    #[error("out of memory")]
    Memory(#[from] AllocError),
    #[error("nothing can be printed")]
    Print(#[from] io::Error),
    #[error("a payload is no text")]
    NoText,
    #[error("a get was answered by an error")]
    ErrorReply,
    #[error("nothing came")]
    Nothing,
}

impl<H: Drop> From<NotSubmitted<H>> for Trouble {
    /// Why an event was not submitted; what came back with it is dropped.
    fn from(back: NotSubmitted<H>) -> Trouble {
        Trouble::Session(back.why)
    }
}

impl From<TextError> for Trouble {
    /// A payload that is no UTF-8, or for whose text there is no memory.
    fn from(why: TextError) -> Trouble {
        match why {
            TextError::Utf8 => Trouble::NoText,
            TextError::NoMemory => Trouble::Memory(AllocError),
        }
    }
}
