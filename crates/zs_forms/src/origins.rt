//! Who made something, and when, in plain numbers.

ghost use Rattle.std.specs.Prelude.{◌≡◌};
ghost use Rattle.zs_forms.specs.Origins.{whole, high, low, timestamp_of, source_of, entity_of, timestamp_form, source_form, entity_form};

use zs_wire::{EntityGlobalId, SourceInfo, Timestamp};

/// When something was made, and by whose clock, where that is known.
#[repr(C)]
#[derive(Clone, Copy, Debug, PartialEq, Eq)]
pub struct TimestampForm {
    pub is_known: bool,
    pub time: u64,
    /// The upper half of the clock's id.
    pub id_high: u64,
    /// The lower half.
    pub id_low: u64,
}

/// An entity of any session, where it is known.
#[repr(C)]
#[derive(Clone, Copy, Debug, PartialEq, Eq)]
pub struct EntityForm {
    pub is_known: bool,
    /// The upper half of the session's identifier in the network.
    pub zid_high: u64,
    /// The lower half.
    pub zid_low: u64,
    /// The entity's number there.
    pub eid: u32,
}

/// Who made a sample, and its number among the samples of that source, where that is known.
#[repr(C)]
#[derive(Clone, Copy, Debug, PartialEq, Eq)]
pub struct SourceForm {
    pub id: EntityForm,
    pub sn: u32,
}

/// The number of two halves.
pub(crate) fn whole(high: u64, low: u64) -> u128
    ensures { result ≡ whole high low }
{
    u128::from(high) * (1 << 64) + u128::from(low)
}

impl TimestampForm {
    /// The timestamp that it says, if it says one.
    pub fn read(&self) -> Option<Timestamp>
        ensures { result ≡ timestamp_of self.now }
    {
        if !self.is_known {
            return None;
        }
        Some(Timestamp {
            time: self.time,
            id: whole(self.id_high, self.id_low),
        })
    }
}

impl EntityForm {
    /// The entity that it says, if it says one.
    pub fn read(&self) -> Option<EntityGlobalId>
        ensures { result ≡ entity_of self.now }
    {
        if !self.is_known {
            return None;
        }
        Some(EntityGlobalId {
            zid: whole(self.zid_high, self.zid_low),
            eid: self.eid,
        })
    }
}

impl SourceForm {
    /// The source that it says, if it says one.
    pub fn read(&self) -> Option<SourceInfo>
        ensures { result ≡ source_of self.now }
    {
        let source_id = self.id.read()?;
        Some(SourceInfo {
            source_id,
            source_sn: self.sn,
        })
    }
}

/// The upper half of a number: what stands before its last 64 bits.
fn high(number: u128) -> u64
    ensures { result ≡ high number }
{
    (number >> 64) as u64
}

/// The lower half: its last 64 bits.
fn low(number: u128) -> u64
    ensures { result ≡ low number }
{
    (number % (1 << 64)) as u64
}

/// The form of a timestamp, or of none: then all else of it is 0.
pub fn timestamp_form(timestamp: Option<Timestamp>) -> TimestampForm
    ensures { result ≡ timestamp_form timestamp }
{
    match timestamp {
        Some(timestamp) => TimestampForm {
            is_known: true,
            time: timestamp.time,
            id_high: high(timestamp.id),
            id_low: low(timestamp.id),
        },
        None => TimestampForm {
            is_known: false,
            time: 0,
            id_high: 0,
            id_low: 0,
        },
    }
}

/// The form of an entity, or of none.
pub fn entity_form(entity: Option<EntityGlobalId>) -> EntityForm
    ensures { result ≡ entity_form entity }
{
    match entity {
        Some(entity) => EntityForm {
            is_known: true,
            zid_high: high(entity.zid),
            zid_low: low(entity.zid),
            eid: entity.eid,
        },
        None => EntityForm {
            is_known: false,
            zid_high: 0,
            zid_low: 0,
            eid: 0,
        },
    }
}

/// The form of a source, or of none.
pub fn source_form(source: Option<SourceInfo>) -> SourceForm
    ensures { result ≡ source_form source }
{
    match source {
        Some(source) => SourceForm {
            id: entity_form(Some(source.source_id)),
            sn: source.source_sn,
        },
        None => SourceForm {
            id: entity_form(None),
            sn: 0,
        },
    }
}
