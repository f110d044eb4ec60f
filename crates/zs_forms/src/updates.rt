//! What is said of a key, in plain numbers and bytes.

ghost use Rattle.std.specs.Prelude.{◌≡◌, IfOk};
ghost use Rattle.zs_forms.specs.Updates.{attachment_of, value_of, update_of, put_update, delete_update};

use crate::origins::{SourceForm, TimestampForm};
use crate::texts::encoding_in;
use std::alloc::{AllocError, Global};
use zs_bytes::ZBytes;
use zs_events::{PushBody, Update};

/// What a put, a deletion or a reply says beside its payload.
#[repr(C)]
#[derive(Clone, Copy)]
pub struct ExtrasForm<'a> {
    /// What the payload is, a UTF-8 text. Without a byte it is the publisher's, or the default one. Deletions have none.
    pub encoding: &'a [u8],
    pub timestamp: TimestampForm,
    pub source: SourceForm,
    pub has_attachment: bool,
    /// Bytes of the application's own, where it has an attachment.
    pub attachment: &'a [u8],
}

impl<'a> ExtrasForm<'a> {
    /// A put of this payload, if the encoding is UTF-8.
    pub(crate) fn put(&self, alloc: Global, payload: &[u8]) -> Result<Option<Update>, AllocError>
        ensures { IfOk result (λ found. found ≡ put_update payload.now self.now) }
    {
        let Some(body) = value(alloc, payload, self.encoding)? else {
            return Ok(None);
        };
        let made = self.update(alloc, body)?;
        Ok(Some(made))
    }

    /// A deletion.
    pub(crate) fn delete(&self, alloc: Global) -> Result<Update, AllocError>
        ensures { IfOk result (λ made. made ≡ delete_update self.now) }
    {
        self.update(alloc, PushBody::Delete)
    }

    /// What is put or deleted, and beside it the timestamp, the source and the attachment that are there.
    fn update(&self, alloc: Global, body: PushBody) -> Result<Update, AllocError>
        ensures { IfOk result (λ made. made ≡ update_of body self.now) }
    {
        let attachment = attachment_in(alloc, self.has_attachment, self.attachment)?;
        Ok(Update {
            body,
            timestamp: self.timestamp.read(),
            source: self.source.read(),
            attachment,
        })
    }
}

/// A value of these bytes, if its encoding is UTF-8.
fn value(alloc: Global, payload: &[u8], encoding: &[u8]) -> Result<Option<PushBody>, AllocError>
    ensures { IfOk result (λ found. found ≡ value_of payload.now encoding.now) }
{
    let Some(encoding) = encoding_in(alloc, encoding)? else {
        return Ok(None);
    };
    let payload = ZBytes::from_slice(alloc, payload)?;
    Ok(Some(PushBody::Put { payload, encoding }))
}

/// An attachment of these bytes, if there is one.
pub fn attachment_in(
    alloc: Global,
    is_there: bool,
    bytes: &[u8],
) -> Result<Option<ZBytes>, AllocError>
    ensures { IfOk result (λ found. found ≡ attachment_of is_there bytes.now) }
{
    if !is_there {
        return Ok(None);
    }
    let bytes = ZBytes::from_slice(alloc, bytes)?;
    Ok(Some(bytes))
}
