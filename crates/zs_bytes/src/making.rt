//! Payloads made from what holds bytes.
//!
//! Each call is handed the allocator first, as every call that takes memory is; some use the one that their argument
//! brings along.

ghost use Rattle.std.specs.Prelude.{◌≡◌, IfOk, string_bytes};
ghost use Rattle.zs_bytes.specs.Payload.{one_slice};

use crate::payload::ZBytes;
use bytes::Bytes;
use std::alloc::{AllocError, Global};

impl ZBytes {
    /// These bytes, in the memory that they have.
    pub fn from_vec(_alloc: Global, bytes: Vec<u8>) -> Result<ZBytes, AllocError>
        ensures { IfOk result (λ made. made ≡ one_slice bytes.items) }
    {
        Ok(ZBytes::of_slice(Bytes::from_vec(bytes)?))
    }

    /// A copy of the bytes.
    pub fn from_slice(alloc: Global, bytes: &[u8]) -> Result<ZBytes, AllocError>
        ensures { IfOk result (λ made. made ≡ one_slice bytes.now) }
    {
        Ok(ZBytes::of_slice(Bytes::copy_from_slice(alloc, bytes)?))
    }

    /// A copy of the bytes.
    pub fn from_array<const N: usize>(alloc: Global, bytes: &[u8; N]) -> Result<ZBytes, AllocError>
        ensures { IfOk result (λ made. made ≡ one_slice bytes.now) }
    {
        ZBytes::from_slice(alloc, bytes)
    }

    /// The text's UTF-8 bytes, in the memory that they have.
    pub fn from_string(_alloc: Global, text: String) -> Result<ZBytes, AllocError>
        ensures { IfOk result (λ made. made ≡ one_slice (string_bytes text)) }
    {
        Ok(ZBytes::of_slice(Bytes::from_string(text)?))
    }

    /// A copy of the text's UTF-8 bytes.
    pub fn from_str(alloc: Global, text: &str) -> Result<ZBytes, AllocError>
        ensures { IfOk result (λ made. made ≡ one_slice text.now) }
    {
        ZBytes::from_slice(alloc, text.as_bytes())
    }

    /// These shared bytes.
    pub fn from_bytes(_alloc: Global, bytes: Bytes) -> Result<ZBytes, AllocError>
        ensures { IfOk result (λ made. made ≡ one_slice bytes) }
    {
        Ok(ZBytes::of_slice(bytes))
    }
}
