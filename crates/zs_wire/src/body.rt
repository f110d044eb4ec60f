//! What publications and replies carry: payloads with their encodings, timestamps and sources.
ghost use Rattle.std.specs.Prelude.{◌≡◌, IfOk};

use crate::origin::{SourceInfo, Timestamp};
use crate::sample_kind::SampleKind;
use std::alloc::{AllocError, Global};
use zs_bytes::{Text, ZBytes};

/// A payload, and what it is.
#[derive(Debug)]
pub struct Value {
    pub payload: ZBytes,
    pub encoding: Text,
}

impl Drop for Value {
    /// Gives up the payload and the encoding. Memory that copies share stays.
    fn drop(self) {
        let Value { payload, encoding } = self;
        drop(payload);
        drop(encoding);
    }
}

impl Value {
    /// The same value. It shares the payload's memory.
    pub fn try_clone(&self, alloc: Global) -> Result<Value, AllocError>
        ensures { IfOk result (λ copy. copy ≡ self.now) }
    {
        let payload = self.payload.try_clone(alloc)?;
        let encoding = self.encoding.try_clone(alloc)?;
        Ok(Value { payload, encoding })
    }
}

/// What a publication or a reply says of its key.
#[derive(Debug)]
pub struct Body {
    pub kind: SampleKind,
    /// The value, none in a deletion.
    pub payload: ZBytes,
    /// What the payload is.
    pub encoding: Text,
    pub timestamp: Option<Timestamp>,
    pub source: Option<SourceInfo>,
    /// Bytes of the application's own beside the payload.
    pub attachment: Option<ZBytes>,
}

impl Drop for Body {
    /// Gives up the payload, the encoding and the attachment. Memory that copies share stays.
    fn drop(self) {
        let Body {
            kind: _,
            payload,
            encoding,
            timestamp: _,
            source: _,
            attachment,
        } = self;
        drop(payload);
        drop(encoding);
        drop(attachment);
    }
}

impl Body {
    /// The same body. It shares the memory of the payload and the attachment.
    pub fn try_clone(&self, alloc: Global) -> Result<Body, AllocError>
        ensures { IfOk result (λ copy. copy ≡ self.now) }
    {
        let payload = self.payload.try_clone(alloc)?;
        let encoding = self.encoding.try_clone(alloc)?;
        let attachment = clone_attachment(&self.attachment, alloc)?;
        Ok(Body {
            kind: self.kind,
            payload,
            encoding,
            timestamp: self.timestamp,
            source: self.source,
            attachment,
        })
    }

    /// Its payload, encoding and attachment.
    pub fn into_parts(self) -> (ZBytes, Text, Option<ZBytes>)
        ensures { result ≡ (self.payload, self.encoding, self.attachment) }
    {
        let Body {
            kind: _,
            payload,
            encoding,
            timestamp: _,
            source: _,
            attachment,
        } = self;
        (payload, encoding, attachment)
    }
}

/// The same attachment, in the same memory, where there is one.
pub(crate) fn clone_attachment(
    attachment: &Option<ZBytes>,
    alloc: Global,
) -> Result<Option<ZBytes>, AllocError>
    ensures { IfOk result (λ copy. copy ≡ attachment.now) }
{
    match attachment {
        Some(bytes) => Ok(Some(bytes.try_clone(alloc)?)),
        None => Ok(None),
    }
}
