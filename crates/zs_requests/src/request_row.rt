//! A request, as each query value that was handed out for it remembers it.
ghost use Rattle.std.specs.Prelude.{◌≡◌, IfOk};

use std::alloc::{AllocError, Global};
use zs_bytes::ZBytes;
use zs_keys::KeyExpr;
use zs_wire::{QoSType, SourceInfo, Text, Value};

/// What a request asks.
#[derive(Debug)]
pub struct RequestRow {
    /// Whether a get of this session asks, and not the network.
    pub local: bool,
    /// The number of the get, or that of the network's request.
    pub rid: u32,
    pub key: KeyExpr<'static>,
    /// What stands behind the `?` of the selector.
    pub parameters: Text,
    pub qos: QoSType,
    pub source: Option<SourceInfo>,
    /// What the asker tells the queryables beside the parameters.
    pub value: Option<Value>,
    pub attachment: Option<ZBytes>,
}

impl Drop for RequestRow {
    /// Frees what owns memory. The numbers, the qualities and the source are plain values.
    fn drop(self) {
        let RequestRow {
            local: _,
            rid: _,
            key,
            parameters,
            qos: _,
            source: _,
            value,
            attachment,
        } = self;
        drop(key);
        drop(parameters);
        drop(value);
        drop(attachment);
    }
}

impl RequestRow {
    /// The same request. It shares the memory of the value's payload and the attachment.
    pub fn try_clone(&self, alloc: Global) -> Result<RequestRow, AllocError>
        ensures { IfOk result (λ copy. copy ≡ self.now) }
    {
        let key = clone_key(&self.key, alloc)?;
        let parameters = self.parameters.try_clone(alloc)?;
        let value = clone_value(&self.value, alloc)?;
        let attachment = clone_attachment(&self.attachment, alloc)?;
        Ok(RequestRow {
            local: self.local,
            rid: self.rid,
            key,
            parameters,
            qos: self.qos,
            source: self.source,
            value,
            attachment,
        })
    }
}

/// The same key. It shares the memory of a text that is shared.
pub fn clone_key(key: &KeyExpr<'static>, alloc: Global) -> Result<KeyExpr<'static>, AllocError>
    ensures { IfOk result (λ copy. copy ≡ key.now) }
{
    match key.borrowing_clone().into_owned(alloc) {
        Ok(copy) => Ok(copy),
        Err(_) => Err(AllocError),
    }
}

/// The same value, if there is one. It shares the memory of the payload.
fn clone_value(value: &Option<Value>, alloc: Global) -> Result<Option<Value>, AllocError>
    ensures { IfOk result (λ copy. copy ≡ value.now) }
{
    match value {
        Some(value) => Ok(Some(value.try_clone(alloc)?)),
        None => Ok(None),
    }
}

/// The same bytes, if there are any. They share their memory.
pub(crate) fn clone_attachment(
    attachment: &Option<ZBytes>,
    alloc: Global,
) -> Result<Option<ZBytes>, AllocError>
    ensures { IfOk result (λ copy. copy ≡ attachment.now) }
{
    match attachment {
        Some(bytes) => Ok(Some(bytes.try_clone(alloc)?)),
        None => Ok(None),
    }
}
