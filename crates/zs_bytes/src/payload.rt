//! The payload of a publication, a query or a reply.

ghost use Rattle.std.specs.Prelude.{◌≡◌, ◌≢◌, ◌<◌, ◌≤◌, ◌==◌, [], length, ◌+◌, ◌++◌, vec_len, vec_capacity, IfOk, OnOk, IsOkAnd, IsUtf8, MatchOption};
ghost use Rattle.std.specs.Cow.{cow_slice_items, cow_str_bytes, IsBorrowedSlice, IsBorrowedStr};
ghost use Rattle.zs_bytes.specs.Payload.{bytes_of, one_slice};

use crate::reader::ZBytesReader;
use crate::slice_iterator::ZBytesSliceIterator;
use crate::slices::Slices;
use bytes::Bytes;
use std::alloc::{AllocError, Global};
use std::borrow::{CowSlice, CowStr};
use std::marker::Model;
use std::str;

/// Why the bytes of a payload are not handed out as a text.
#[derive(Clone, Copy, Debug, PartialEq, Eq)]
pub enum TextError {
    /// The bytes are not UTF-8.
    Utf8,
    /// There was no memory to join the slices.
    NoMemory,
}

impl From<AllocError> for TextError {
    ghost use Rattle.zs_bytes.specs.declared.payload.TextError.{TextError};

    ghost from_gives = { λ _ e. e ≡ TextError.NoMemory };

    /// Want of memory is `NoMemory`, so that `?` hands it on.
    fn from(_error: AllocError) -> TextError {
        TextError::NoMemory
    }
}

/// Bytes in slices that are shared and never copied: a clone, and what is appended to a writer, use the same memory.
///
/// Contracts see the list of the slices. What a payload means is only their bytes, one slice behind the other.
#[derive(Debug)]
pub struct ZBytes {
    slices: Slices,
    len: usize,
}

impl Drop for ZBytes {
    /// Gives up the slices. Memory that other payloads share stays.
    fn drop(self) {
        let ZBytes { slices, len: _ } = self;
        drop(slices);
    }
}

impl Model for ZBytes {
    ghost use Rattle.std.specs.Prelude.{◌≡◌, ℕ, List, length};

    ghost Value = { List (List ℕ) };

    ghost use Rattle.zs_bytes.specs.Payload.{bytes_of, one_slice};
    ghost use Rattle.zs_bytes.specs.Slices.{slices_of};

    ghost view = { λ z. slices_of z.slices };

    ghost invariant = { λ z. z.len ≡ length (bytes_of (slices_of z.slices)) };
}

impl Default for ZBytes {
    ghost is_default = { λ value. value ≡ [] };

    /// The payload without a slice, as `new` makes it.
    fn default() -> ZBytes {
        ZBytes::new()
    }
}

impl ZBytes {
    /// No slice and no byte.
    pub const fn new() -> ZBytes
        ensures { result ≡ [] }
    {
        ZBytes {
            slices: Slices::Nothing,
            len: 0,
        }
    }

    /// How many bytes there are.
    pub fn len(&self) -> usize
        ensures { result ≡ length (bytes_of self.now) }
    {
        self.len
    }

    /// Whether there is no byte.
    pub fn is_empty(&self) -> bool
        ensures { result ≡ (length (bytes_of self.now) == 0) }
    {
        self.len == 0
    }

    /// The slices as they are stored, in order.
    pub(crate) fn as_slices(&self) -> &[Bytes]
        ensures { result.now ≡ self.now }
    {
        self.slices.as_slice()
    }

    /// Each slice once, in order.
    pub fn slices(&self) -> ZBytesSliceIterator<'_>
        ensures { result ≡ self.now }
    {
        ZBytesSliceIterator::over(self.as_slices())
    }

    /// A reader of the bytes, at their start.
    pub fn reader(&self) -> ZBytesReader<'_>
        ensures { result ≡ record { bytes = bytes_of self.now; position = 0 } }
    {
        ZBytesReader::over(self.as_slices(), self.len)
    }

    /// The bytes where they lie in one piece.
    fn as_one_slice(&self) -> Option<&[u8]>
        ensures { MatchOption result (1 < length self.now) (λ slice. slice.now ≡ bytes_of self.now) }
    {
        match self.as_slices() {
            [] => Some(&[]),
            [slice] => Some(slice.as_slice()),
            _ => None,
        }
    }

    /// A copy of all the bytes.
    #[tactic(auto, using(crate::proofs::Joining::joining))]
    fn joined(&self, alloc: Global) -> Result<Vec<u8>, AllocError>
        ensures { IfOk result (λ bytes. bytes.items ≡ bytes_of self.now) }
    {
        let mut bytes = Vec::with_capacity(alloc, self.len())?;
        let slices = self.as_slices();
        'slices: for slice in slices {
            bytes.extend_from_slice(slice.as_slice())?;
        }
        Ok(bytes)
    }

    /// All the bytes. They are lent where they lie in one slice, and copied otherwise.
    pub fn to_bytes(&self, alloc: Global) -> Result<CowSlice<'_, u8, Global>, AllocError>
        ensures bytes { IfOk result (λ bytes. cow_slice_items bytes ≡ bytes_of self.now) }
        ensures lent { length self.now ≤ 1 → IsOkAnd result (λ bytes. IsBorrowedSlice bytes) }
    {
        match self.as_one_slice() {
            Some(slice) => Ok(CowSlice::Borrowed(slice)),
            None => Ok(CowSlice::Owned(self.joined(alloc)?)),
        }
    }

    /// All the bytes as a text. It is lent where they lie in one slice, and copied otherwise.
    pub fn try_to_string(&self, alloc: Global) -> Result<CowStr<'_, Global>, TextError>
        ensures text { IfOk result (λ text. cow_str_bytes text ≡ bytes_of self.now) }
        ensures utf8 { OnOk result (IsUtf8 (bytes_of self.now)) }
        ensures not_utf8 { result ≡ Err TextError.Utf8 → ¬ (IsUtf8 (bytes_of self.now)) }
        ensures lent { length self.now ≤ 1 → (result ≢ Err TextError.NoMemory) × IfOk result (λ text. IsBorrowedStr text) }
    {
        match self.as_one_slice() {
            Some(slice) => match str::from_utf8(slice) {
                Ok(text) => Ok(CowStr::Borrowed(text)),
                Err(_) => Err(TextError::Utf8),
            },
            None => match String::from_utf8(self.joined(alloc)?) {
                Ok(text) => Ok(CowStr::Owned(text)),
                Err(_) => Err(TextError::Utf8),
            },
        }
    }

    /// The same slices in the same memory.
    pub fn try_clone(&self, alloc: Global) -> Result<ZBytes, AllocError>
        ensures { IfOk result (λ copy. copy ≡ self.now) }
    {
        Ok(ZBytes {
            slices: self.slices.try_clone(alloc)?,
            len: self.len,
        })
    }

    /// A payload of one slice, or of none where there is no byte.
    pub(crate) fn of_slice(slice: Bytes) -> ZBytes
        ensures { result ≡ one_slice slice }
    {
        let len = slice.len();
        if len == 0 {
            return ZBytes::new();
        }
        ZBytes {
            slices: Slices::One(slice),
            len,
        }
    }

    /// A payload of these slices, which have `len` bytes.
    pub(crate) fn of_list(slices: Vec<Bytes>, len: usize) -> ZBytes
        requires { len ≡ length (bytes_of slices.items) }
        ensures { result ≡ slices.items }
    {
        ZBytes {
            slices: Slices::of_list(slices),
            len,
        }
    }

    /// Moves the slices behind those of a list that has room for them.
    pub(crate) fn move_into(self, list: &mut Vec<Bytes>)
        requires { vec_len list.old + length self ≤ vec_capacity list.old }
        ensures { list.new.items ≡ list.old.items ++ self }
    {
        let ZBytes { slices, len: _ } = self;
        match slices {
            Slices::Nothing => (),
            Slices::One(slice) => list.push_reserved(slice),
            Slices::Many(mut slices) => {
                // There is room, so it succeeds.
                let _moved = list.append(&mut slices);
            }
        }
    }
}
