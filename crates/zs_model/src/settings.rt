//! What a session is opened with.

ghost use Rattle.std.specs.Prelude.{◌≡◌, IfOk};
ghost use Rattle.zs_model.specs.Settings.{is_valid};

use crate::key_list::KeyList;
use std::alloc::{AllocError, Global};

/// The most bytes that any settings allow a line.
pub const LINE_MAX: u32 = 1 << 20;

/// What a session is opened with.
#[derive(Debug, PartialEq, Eq, Drop)]
pub struct Settings {
    /// The session's own identifier in the network, its ZenohId: not 0.
    pub zid: u128,
    /// What the keys that this session declares are marked with, to tell them from those of other sessions.
    pub tag: u64,
    /// The number of the session itself among the entities: the first one that it declares has the next.
    pub entity_start: u32,
    /// The number of the first key that it declares: not 0, which no declared key has.
    pub key_start: u16,
    /// The number of its first get.
    pub query_start: u32,
    /// What subscribers on narrower keys are told to the network as: each is on the first of these that includes its key.
    pub aggregated_subscribers: KeyList,
    /// The same for publishers.
    pub aggregated_publishers: KeyList,
    /// After how many milliseconds a get ends that doesn't say it itself.
    pub default_timeout: u64,
    /// How many bytes a line of a script may have.
    pub line_max: u32,
    /// How many reads of its input a run makes at most.
    pub turns: u64,
}

impl Settings {
    /// Whether a session can be opened with them: the identifier is not 0, there is a number left for an entity, the
    /// first key number is not 0, lines may have from 1 to 1048576 bytes, and there is at least one read.
    pub fn is_valid(&self) -> bool
        ensures { result ≡ is_valid self.now }
    {
        self.zid != 0
            && self.entity_start < u32::MAX
            && self.key_start >= 1
            && self.line_max >= 1
            && self.line_max <= LINE_MAX
            && self.turns >= 1
    }

    /// The same settings. The texts of their keys share their memory.
    pub fn try_clone(&self, alloc: Global) -> Result<Settings, AllocError>
        ensures { IfOk result (λ copy. copy ≡ self.now) }
    {
        let aggregated_subscribers = self.aggregated_subscribers.try_clone(alloc)?;
        let aggregated_publishers = self.aggregated_publishers.try_clone(alloc)?;
        Ok(Settings {
            zid: self.zid,
            tag: self.tag,
            entity_start: self.entity_start,
            key_start: self.key_start,
            query_start: self.query_start,
            aggregated_subscribers,
            aggregated_publishers,
            default_timeout: self.default_timeout,
            line_max: self.line_max,
            turns: self.turns,
        })
    }
}

impl Default for Settings {
    ghost use Rattle.std.specs.Prelude.{◌≡◌};
    ghost use Rattle.zs_model.specs.Settings.{default_settings};

    ghost is_default = { λ s. s ≡ default_settings };

    /// Numbers begin at 1, and those of gets at 0; nothing is aggregated. A get ends after 10 seconds, which is the
    /// default of Zenoh too.
    fn default() -> Settings {
        Settings {
            zid: 1,
            tag: 1,
            entity_start: 1,
            key_start: 1,
            query_start: 0,
            aggregated_subscribers: KeyList::new(),
            aggregated_publishers: KeyList::new(),
            default_timeout: 10000,
            line_max: 65536,
            turns: 1 << 32,
        }
    }
}
