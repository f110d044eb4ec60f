//! Keys as the application names them: by a text, or by a declared number.
ghost use Rattle.std.specs.Prelude.{◌≡◌, IfOk};

use std::alloc::{AllocError, Global};
use zs_sample::Text;

/// The key of an event, as the application gave it.
#[derive(Debug)]
pub enum KeyArg {
    /// A text, not tested yet.
    Text(Text),
    /// A number that this session declared for a key, and a text behind that key.
    Number {
        number: u16,
        /// It may be empty: then it is the declared key itself.
        suffix: Text,
    },
    /// A key with a declaration of this session. The number is used where it is held and stands for the first
    /// `prefix_len` bytes of the text; otherwise the key is its text alone.
    Declared {
        text: Text,
        number: u16,
        prefix_len: u32,
    },
}

impl Drop for KeyArg {
    /// Lets go of the text. A number that it names stays declared.
    fn drop(self) {
        match self {
            KeyArg::Text(text) => drop(text),
            KeyArg::Number { number: _, suffix } => drop(suffix),
            KeyArg::Declared {
                text,
                number: _,
                prefix_len: _,
            } => drop(text),
        }
    }
}

impl KeyArg {
    /// The same key argument, in the same memory.
    pub fn try_clone(&self, alloc: Global) -> Result<KeyArg, AllocError>
        ensures { IfOk result (λ copy. copy ≡ self.now) }
    {
        match self {
            KeyArg::Text(text) => Ok(KeyArg::Text(text.try_clone(alloc)?)),
            KeyArg::Number { number, suffix } => {
                let suffix = suffix.try_clone(alloc)?;
                Ok(KeyArg::Number {
                    number: *number,
                    suffix,
                })
            }
            KeyArg::Declared {
                text,
                number,
                prefix_len,
            } => {
                let text = text.try_clone(alloc)?;
                Ok(KeyArg::Declared {
                    text,
                    number: *number,
                    prefix_len: *prefix_len,
                })
            }
        }
    }
}
