//! Why a run over lines stops early.
ghost use Rattle.std.specs.Prelude.{◌≡◌};

use std::alloc::AllocError;
use thiserror::Error;
use zs_lines::{LineError, WriteFault};

/// Why a run over lines stopped before its end.
#[derive(Clone, Copy, Debug, PartialEq, Eq, Error)]
pub enum DriveError {
    /// The source failed.
    #[error("ReadFault")]
    ReadFault,
    /// The sink failed.
    #[error("WriteFault")]
    WriteFault,
    /// The line of this number, from 1, was not taken.
    #[error("BadLine {0}")]
    BadLine(u64),
    /// The line of this number, from 1, has more bytes than a line may have.
    #[error("LineTooLong {0}")]
    LineTooLong(u64),
    /// As many reads as there may be gave bytes, and none saw the end.
    #[error("OutOfTurns")]
    OutOfTurns,
    /// There was no memory.
    #[error("NoMemory")]
    NoMemory,
}

impl From<LineError> for DriveError {
    ghost use Rattle.zs_driving.specs.Errors.{drive_error};

    ghost from_gives = { λ line error. error ≡ drive_error line };

    /// What the reading of lines failed of, under the same name. The number of a line that is too long stays.
    fn from(error: LineError) -> DriveError {
        match error {
            LineError::ReadFault => DriveError::ReadFault,
            LineError::LineTooLong(number) => DriveError::LineTooLong(number),
            LineError::OutOfTurns => DriveError::OutOfTurns,
            LineError::NoMemory => DriveError::NoMemory,
        }
    }
}

impl From<WriteFault> for DriveError {
    ghost use Rattle.zs_driving.specs.declared.errors.DriveError.{DriveError};

    ghost from_gives = { λ _ error. error ≡ DriveError.WriteFault };

    /// A sink that didn't take the text ends a run with `WriteFault`.
    fn from(_error: WriteFault) -> DriveError {
        DriveError::WriteFault
    }
}

impl From<AllocError> for DriveError {
    ghost use Rattle.zs_driving.specs.declared.errors.DriveError.{DriveError};

    ghost from_gives = { λ _ error. error ≡ DriveError.NoMemory };

    /// An allocation that failed ends a run with `NoMemory`.
    fn from(_error: AllocError) -> DriveError {
        DriveError::NoMemory
    }
}
