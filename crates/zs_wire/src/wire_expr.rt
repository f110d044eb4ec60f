//! Key expressions as messages carry them.
ghost use Rattle.std.specs.Prelude.{◌≡◌, IfOk};

use std::alloc::{AllocError, Global};
use zs_bytes::Text;

/// Whose declared numbers a wire expression's scope is of. It is the Zenoh protocol's `Mapping`.
#[derive(Clone, Copy, Debug, PartialEq, Eq, Hash)]
pub enum Mapping {
    /// The sender of the message declared the number.
    Sender,
    /// The receiver of the message declared it.
    Receiver,
}

/// A key as a message carries it: a declared number, and the text behind what that number stands for. It is the
/// Zenoh protocol's `WireExpr`.
#[derive(Debug)]
pub struct WireExpr {
    /// The declared number. 0 is none: then the suffix is the whole text.
    pub scope: u16,
    /// The text behind what the number stands for. It may be empty.
    pub suffix: Text,
    /// Who declared the number.
    pub mapping: Mapping,
}

impl Drop for WireExpr {
    /// Gives up the suffix. Its number stays declared, and memory that copies share stays.
    fn drop(self) {
        let WireExpr {
            scope: _,
            suffix,
            mapping: _,
        } = self;
        drop(suffix);
    }
}

impl WireExpr {
    /// The same wire expression. It shares the memory of the suffix.
    pub fn try_clone(&self, alloc: Global) -> Result<WireExpr, AllocError>
        ensures { IfOk result (λ copy. copy ≡ self.now) }
    {
        let suffix = self.suffix.try_clone(alloc)?;
        Ok(WireExpr {
            scope: self.scope,
            suffix,
            mapping: self.mapping,
        })
    }
}
