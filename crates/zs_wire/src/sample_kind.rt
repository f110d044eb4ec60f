//! Whether a sample puts or deletes.
use std::convert::TryFrom;
use std::fmt;

/// Whether a sample brings a value for its key, or says that the key has none any more.
#[derive(Clone, Copy, Debug, Default, PartialEq, Eq, Hash)]
pub enum SampleKind {
    #[default]
    Put,
    Delete,
}

impl TryFrom<u64> for SampleKind {
    ghost use Rattle.std.specs.Prelude.{◌≡◌};
    ghost use Rattle.zs_wire.specs.SampleKind.{kind_of};

    type Error = u64;

    ghost try_from_gives = { λ number answer. answer ≡ kind_of number };

    /// The kind that stands for the number in the Zenoh protocol. Any other number comes back.
    fn try_from(kind: u64) -> Result<SampleKind, u64> {
        match kind {
            0 => Ok(SampleKind::Put),
            1 => Ok(SampleKind::Delete),
            other => Err(other),
        }
    }
}

impl fmt::Display for SampleKind {
    ghost use Rattle.std.specs.Prelude.{Some};
    ghost use Rattle.zs_wire.specs.SampleKind.{name_of};

    ghost output = { λ kind. Some (name_of kind) };

    /// Writes `PUT` or `DELETE`, with the width and precision that the formatter asks for.
    fn fmt<W: fmt::Write>(&self, f: &mut fmt::Formatter<W>) -> fmt::Result {
        f.pad(match self {
            SampleKind::Put => "PUT",
            SampleKind::Delete => "DELETE",
        })
    }
}
