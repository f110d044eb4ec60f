//! The error that a queryable answers with.
ghost use Rattle.std.specs.Prelude.{◌≡◌, [], codes, IfOk};

use crate::encoding::Encoding;
use std::alloc::{AllocError, Global};
use std::fmt;
use std::marker::Model;
use zs_bytes::ZBytes;

/// What a queryable answers in place of a sample. Contracts see its fields.
#[derive(Debug, PartialEq, Eq)]
pub struct ReplyError {
    payload: ZBytes,
    encoding: Encoding,
}

impl Drop for ReplyError {
    /// Gives up the payload and the encoding. Bytes that copies share stay.
    fn drop(self) {
        let ReplyError { payload, encoding } = self;
        drop(payload);
        drop(encoding);
    }
}

impl Model for ReplyError {
    ghost use Rattle.zs_sample.specs.ErrorFields.{ErrorFields};

    ghost Value = { ErrorFields };

    ghost view = { λ e. record { payload = e.payload; encoding = e.encoding } };

    ghost inverse = { λ e. record { payload = e.payload; encoding = e.encoding } };
}

impl ReplyError {
    ghost use Rattle.std.specs.Borrow.{sem};
    ghost use Rattle.zs_sample.specs.ReplyError.{LendsPayload};

    /// An error with this payload, which is of this encoding.
    pub fn of(payload: ZBytes, encoding: Encoding) -> ReplyError
        ensures { result ≡ record { payload = payload; encoding = encoding } }
    {
        ReplyError { payload, encoding }
    }

    /// An error with no byte, of the default encoding.
    pub fn empty() -> ReplyError
        ensures { result ≡ record { payload = []; encoding = codes "zenoh/bytes" } }
    {
        ReplyError {
            payload: ZBytes::new(),
            encoding: Encoding::default(),
        }
    }

    /// Its bytes.
    pub fn payload(&self) -> &ZBytes
        ensures { result.now ≡ self.now.payload }
    {
        &self.payload
    }

    /// Its bytes, to be changed.
    pub fn payload_mut(&mut self) -> &mut ZBytes
        ensures value { result.now ≡ self.old.payload }
        ensures* writes_back { sem 𝓛 (LendsPayload self.entry result) }
    {
        &mut self.payload
    }

    /// What the bytes are.
    pub fn encoding(&self) -> &Encoding
        ensures { result.now ≡ self.now.encoding }
    {
        &self.encoding
    }

    /// The same error. The bytes are shared, and not copied.
    pub fn try_clone(&self, alloc: Global) -> Result<ReplyError, AllocError>
        ensures { IfOk result (λ copy. copy ≡ self.now) }
    {
        let payload = self.payload.try_clone(alloc)?;
        let encoding = self.encoding.try_clone(alloc)?;
        Ok(ReplyError { payload, encoding })
    }
}

impl fmt::Display for ReplyError {
    ghost use Rattle.std.specs.Prelude.{Some};
    ghost use Rattle.zs_sample.specs.ReplyError.{error_text};

    ghost output = { λ e. Some (error_text e) };

    /// Tells how many bytes the payload has and of what encoding it is. The bytes themselves are not shown.
    fn fmt<W: fmt::Write>(&self, f: &mut fmt::Formatter<W>) -> fmt::Result {
        write!(
            f,
            "query returned an error with a {}-byte payload and encoding {}",
            self.payload.len(),
            self.encoding
        )
    }
}
