//! Keys that are given as a number and bytes.

ghost use Rattle.std.specs.Prelude.{◌≡◌, IfOk};
ghost use Rattle.zs_forms.specs.Keys.{key_arg, key_of};

use crate::texts::text_in;
use std::alloc::{AllocError, Global};
use zs_bytes::Text;
use zs_events::KeyArg;

/// The key of an event.
#[repr(C)]
#[derive(Clone, Copy)]
pub struct KeyForm<'a> {
    /// A number that the session declared for a key, or 0: then the text is the whole key.
    pub number: u16,
    /// The text behind what the number stands for.
    pub text: &'a [u8],
}

impl<'a> KeyForm<'a> {
    /// The key argument, if the text is UTF-8.
    pub(crate) fn read(&self, alloc: Global) -> Result<Option<KeyArg>, AllocError>
        ensures { IfOk result (λ found. found ≡ key_of self.now.number self.now.text.now) }
    {
        let Some(text) = text_in(alloc, self.text)? else {
            return Ok(None);
        };
        Ok(Some(key_arg(self.number, text)))
    }
}

/// The key of a declared number with a text behind it, or of a text alone.
fn key_arg(number: u16, text: Text) -> KeyArg
    ensures { result ≡ key_arg number text }
{
    if number == 0 {
        KeyArg::Text(text)
    } else {
        KeyArg::Number {
            number,
            suffix: text,
        }
    }
}
