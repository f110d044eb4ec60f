//! Samples, which subscribers are handed and replies bring.
ghost use Rattle.std.specs.Prelude.{◌≡◌, IfOk};
ghost use Rattle.std.specs.Option.{option_copied, option_copied_mut};

use crate::encoding::Encoding;
use crate::quality::{Priority, Reliability};
use crate::sample_fields::SampleFields;
use std::alloc::{AllocError, Global};
use std::marker::Model;
use zs_bytes::ZBytes;
use zs_keys::KeyExpr;
use zs_wire::{CongestionControl, SampleKind, SourceInfo, Timestamp};

/// What a subscriber is handed: a publication on a key. Contracts see its fields.
#[derive(Debug)]
pub struct Sample {
    fields: SampleFields,
}

impl Drop for Sample {
    /// Gives up the fields. Bytes that copies share stay.
    fn drop(self) {
        let Sample { fields } = self;
        drop(fields);
    }
}

impl Model for Sample {
    ghost use Rattle.zs_sample.specs.declared.sample_fields.SampleFields.{SampleFields};

    ghost Value = { SampleFields };

    ghost view = { λ s. s.fields };
}

impl Sample {
    ghost use Rattle.std.specs.Borrow.{sem};
    ghost use Rattle.zs_sample.specs.Sample.{LendsPayload, LendsAttachment};

    /// A sample of these fields.
    pub fn from_fields(fields: SampleFields) -> Sample
        ensures { result ≡ fields }
    {
        Sample { fields }
    }

    /// The sample's fields.
    pub fn into_fields(self) -> SampleFields
        ensures { result ≡ self }
    {
        let Sample { fields } = self;
        fields
    }

    /// The same sample. It shares the memory of its texts and bytes; only a key that owns its text is copied.
    pub fn try_clone(&self, alloc: Global) -> Result<Sample, AllocError>
        ensures { IfOk result (λ copy. copy ≡ self.now) }
    {
        Ok(Sample {
            fields: self.fields.try_clone(alloc)?,
        })
    }

    /// The key that it was published on.
    pub fn key_expr(&self) -> &KeyExpr<'static>
        ensures { result.now ≡ self.now.key_expr }
    {
        &self.fields.key_expr
    }

    /// Its bytes, none in a deletion.
    pub fn payload(&self) -> &ZBytes
        ensures { result.now ≡ self.now.payload }
    {
        &self.fields.payload
    }

    /// Whether it puts or deletes.
    pub fn kind(&self) -> SampleKind
        ensures { result ≡ self.now.kind }
    {
        self.fields.kind
    }

    /// What the payload is.
    pub fn encoding(&self) -> &Encoding
        ensures { result.now ≡ self.now.encoding }
    {
        &self.fields.encoding
    }

    /// Whether it was sent at once, and not batched.
    pub fn express(&self) -> bool
        ensures { result ≡ self.now.express }
    {
        self.fields.express
    }

    /// How urgent it is.
    pub fn priority(&self) -> Priority
        ensures { result ≡ self.now.priority }
    {
        self.fields.priority
    }

    /// Whether it was dropped or waited where a queue was full.
    pub fn congestion_control(&self) -> CongestionControl
        ensures { result ≡ self.now.congestion_control }
    {
        self.fields.congestion_control
    }

    /// Whether it might have been lost on the way.
    pub fn reliability(&self) -> Reliability
        ensures { result ≡ self.now.reliability }
    {
        self.fields.reliability
    }

    /// When it was made, where that is known.
    pub fn timestamp(&self) -> Option<&Timestamp>
        ensures { option_copied result ≡ self.now.timestamp }
    {
        self.fields.timestamp.as_ref()
    }

    /// Who made it, and its number among the samples of that source, where that is known.
    pub fn source_info(&self) -> Option<&SourceInfo>
        ensures { option_copied result ≡ self.now.source_info }
    {
        self.fields.source_info.as_ref()
    }

    /// What was sent along beside the payload.
    pub fn attachment(&self) -> Option<&ZBytes>
        ensures { option_copied result ≡ self.now.attachment }
    {
        self.fields.attachment.as_ref()
    }

    /// Its bytes, to be changed.
    pub fn payload_mut(&mut self) -> &mut ZBytes
        ensures value { result.now ≡ self.old.payload }
        ensures* writes_back { sem 𝓛 (LendsPayload self.entry result) }
    {
        &mut self.fields.payload
    }

    /// What was sent along beside the payload, to be changed.
    pub fn attachment_mut(&mut self) -> Option<&mut ZBytes>
        ensures value { option_copied_mut result ≡ self.old.attachment }
        ensures* writes_back { sem 𝓛 (LendsAttachment self.entry result) }
    {
        self.fields.attachment.as_mut()
    }
}
