//! Why recording fails.
ghost use Rattle.std.specs.Prelude.{◌≡◌};

use std::alloc::AllocError;
use zs_lines::WriteFault;

/// Why an event was not recorded.
#[derive(Clone, Copy, Debug, PartialEq, Eq)]
pub enum RecordError {
    /// No line says the event in this place, from 1.
    Unprintable(u64),
    /// The sink failed.
    WriteFault,
    /// There was no memory.
    NoMemory,
}

impl From<AllocError> for RecordError {
    ghost use Rattle.zs_recordings.specs.declared.error.RecordError.{RecordError};

    ghost from_gives = { λ _ error. error ≡ RecordError.NoMemory };

    /// Want of memory, as recording tells it.
    fn from(_error: AllocError) -> RecordError {
        RecordError::NoMemory
    }
}

impl From<WriteFault> for RecordError {
    ghost use Rattle.zs_recordings.specs.declared.error.RecordError.{RecordError};

    ghost from_gives = { λ _ error. error ≡ RecordError.WriteFault };

    /// A fault of the sink, as recording tells it.
    fn from(_error: WriteFault) -> RecordError {
        RecordError::WriteFault
    }
}
