//! What a get in mode `Monotonic` remembers of the samples that it handed out.
ghost use Rattle.std.specs.Prelude.{◌≡◌, [], OnOk, OnErr};
ghost use Rattle.zs_query.specs.Marks.{passes};
ghost use Rattle.zs_query.specs.Kept.{put};

use crate::timestamps::is_below;
use indexmap::IndexMap;
use std::alloc::{AllocError, Global};
use std::marker::Model;
use zs_keys::KeyExpr;
use zs_requests::clone_key;
use zs_sample::{Sample, Timestamp};

/// The timestamp of the last sample of each key that was handed out, in the order of the keys' first ones.
#[derive(Drop)]
pub(crate) struct LastTimes {
    by_key: IndexMap<KeyExpr<'static>, Option<Timestamp>>,
}

impl Model for LastTimes {
    ghost use Rattle.std.specs.Prelude.{List, map};
    ghost use Rattle.zs_query.specs.Marks.{Mark};
    ghost use Rattle.zs_query.specs.ByKey.{mark_of_entry};

    ghost Value = { List Mark };

    ghost view = { λ l. map mark_of_entry l.by_key.entries };
}

impl LastTimes {
    /// No key.
    pub(crate) fn new(alloc: Global) -> LastTimes
        ensures { result ≡ [] }
    {
        LastTimes {
            by_key: IndexMap::new(alloc),
        }
    }

    /// Whether a sample isn't older than the last one of its key.
    pub(crate) fn lets_pass(&self, sample: &Sample) -> bool
        ensures { result ≡ passes self.now (record { key = sample.now.key_expr.text; timestamp = sample.now.timestamp }) }
    {
        match self.by_key.get(sample.key_expr()) {
            Some(last) => !is_below(sample.timestamp(), last.as_ref()),
            None => true,
        }
    }

    /// Notes the timestamp of a sample in the place of that of its key.
    pub(crate) fn put(&mut self, alloc: Global, sample: &Sample) -> Result<(), AllocError>
        ensures ok { OnOk result (self.new ≡ put (λ m. m.key) (record { key = sample.now.key_expr.text; timestamp = sample.now.timestamp }) self.old) }
        ensures err { OnErr result (self.new ≡ self.old) }
    {
        let key = clone_key(sample.key_expr(), alloc)?;
        self.by_key.insert(key, sample.timestamp().copied())?;
        Ok(())
    }
}
