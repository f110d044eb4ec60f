//! Why a key expression could not be made.

use std::alloc::AllocError;
use std::error::Error;
use std::fmt;

/// Why a key expression could not be made.
#[derive(Clone, Copy, Debug, PartialEq, Eq)]
pub enum KeyError {
    /// The text is not a canonical key expression.
    BadKeyExpr,
    /// A text that begins with `*` was to be put behind one that ends with `*`.
    ConcatStars,
    /// There was no memory.
    NoMemory,
}

impl From<AllocError> for KeyError {
    ghost use Rattle.std.specs.Prelude.{◌≡◌};
    ghost use Rattle.zs_keys.specs.declared.key_error.KeyError.{KeyError};
    ghost use Rattle.zs_keys.specs.declared.key_error.KeyError.TheVariants.{NoMemory};

    ghost from_gives = { λ _ error. error ≡ NoMemory };

    /// Want of memory is `NoMemory`, so that `?` hands it on.
    fn from(_: AllocError) -> KeyError {
        KeyError::NoMemory
    }
}

impl fmt::Display for KeyError {
    /// Says in English what was wrong, without the text that was refused.
    fn fmt<W: fmt::Write>(&self, f: &mut fmt::Formatter<W>) -> fmt::Result {
        f.write_str(match self {
            KeyError::BadKeyExpr => "not a canonical key expression",
            KeyError::ConcatStars =>
                "a text that begins with a star cannot follow one that ends with a star",
            KeyError::NoMemory => "out of memory",
        })
    }
}

impl Error for KeyError {}
