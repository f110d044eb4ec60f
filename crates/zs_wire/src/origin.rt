//! When samples were made, and by whom.
ghost use Rattle.std.specs.Prelude.{◌≡◌};

/// When a sample was made, and by whose clock. Timestamps are ordered by time, and then by the clock's id.
#[derive(Clone, Copy, Debug, PartialEq, Eq, PartialOrd, Ord, Hash)]
pub struct Timestamp {
    /// The moment, as Zenoh has it: seconds since the Unix epoch in the upper 32 bits, their fractions in the lower ones.
    pub time: u64,
    /// Which clock told the time.
    pub id: u128,
}

/// An entity, as a publisher or a queryable, of any session: the session's Zenoh id, and the entity's number there.
#[derive(Clone, Copy, Debug, PartialEq, Eq, Hash)]
pub struct EntityGlobalId {
    pub zid: u128,
    pub eid: u32,
}

/// Who made a sample, and its number among the samples of that source.
#[derive(Clone, Copy, Debug, PartialEq, Eq, Hash)]
pub struct SourceInfo {
    pub source_id: EntityGlobalId,
    pub source_sn: u32,
}

/// The number of a sample among those of its source.
pub type SourceSn = u32;

impl SourceInfo {
    /// The sample of this number of the entity.
    pub fn new(id: EntityGlobalId, sn: SourceSn) -> SourceInfo
        ensures { result ≡ record { source_id = id; source_sn = sn } }
    {
        SourceInfo {
            source_id: id,
            source_sn: sn,
        }
    }

    /// Who made the sample.
    pub fn source_id(&self) -> &EntityGlobalId
        ensures { result.now ≡ self.now.source_id }
    {
        &self.source_id
    }

    /// Its number among the samples of that source.
    pub fn source_sn(&self) -> SourceSn
        ensures { result ≡ self.now.source_sn }
    {
        self.source_sn
    }
}
