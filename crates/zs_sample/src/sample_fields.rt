//! What a sample is made of, open to be read and moved.
ghost use Rattle.std.specs.Prelude.{◌≡◌, IfOk};

use crate::encoding::Encoding;
use crate::quality::{Priority, Reliability};
use std::alloc::{AllocError, Global};
use zs_bytes::ZBytes;
use zs_keys::KeyExpr;
use zs_wire::{CongestionControl, SampleKind, SourceInfo, Timestamp};

/// The fields of a sample.
#[derive(Debug, Drop)]
pub struct SampleFields {
    pub key_expr: KeyExpr<'static>,
    pub payload: ZBytes,
    pub kind: SampleKind,
    pub encoding: Encoding,
    pub timestamp: Option<Timestamp>,
    pub express: bool,
    pub priority: Priority,
    pub congestion_control: CongestionControl,
    pub reliability: Reliability,
    pub source_info: Option<SourceInfo>,
    pub attachment: Option<ZBytes>,
}

impl SampleFields {
    /// The same fields. The bytes are shared, and not copied.
    pub fn try_clone(&self, alloc: Global) -> Result<SampleFields, AllocError>
        ensures { IfOk result (λ copy. copy ≡ self.now) }
    {
        let Ok(key_expr) = self.key_expr.borrowing_clone().into_owned(alloc) else {
            return Err(AllocError);
        };
        let attachment = match &self.attachment {
            Some(bytes) => Some(bytes.try_clone(alloc)?),
            None => None,
        };
        let payload = self.payload.try_clone(alloc)?;
        let encoding = self.encoding.try_clone(alloc)?;
        Ok(SampleFields {
            key_expr,
            payload,
            kind: self.kind,
            encoding,
            timestamp: self.timestamp,
            express: self.express,
            priority: self.priority,
            congestion_control: self.congestion_control,
            reliability: self.reliability,
            source_info: self.source_info,
            attachment,
        })
    }
}
