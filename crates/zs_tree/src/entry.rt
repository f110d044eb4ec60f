//! The entries of a tree.

ghost use Rattle.std.specs.Prelude.{◌≡◌, IfOk, OnOk, string_bytes};
ghost use Rattle.zs_tree.specs.Code.{code_of};

use crate::code::code_of;
use std::alloc::{AllocError, Global};

/// A number with its key.
#[derive(Drop)]
pub(crate) struct Entry {
    pub(crate) id: u32,
    pub(crate) text: String,
    pub(crate) code: Vec<u8>,
    ghost coded: { code.items ≡ code_of (string_bytes text) },
}

impl Entry {
    ghost use Rattle.zs_tree.specs.Entries.{row_of};

    /// An entry with this number, a copy of the key and its code. It fails for want of memory alone.
    pub(crate) fn new(alloc: Global, id: u32, text: &str) -> Result<Entry, AllocError>
        ensures { IfOk result (λ entry. row_of entry ≡ record { id = id; text = text.now }) }
    {
        let code = code_of(alloc, text)?;
        let text = String::from_str(alloc, text)?;
        Ok(Entry { id, text, code })
    }
}
