//! The replies that a get in mode `Latest` keeps for its end.
ghost use Rattle.std.specs.Prelude.{◌≡◌, ◌≤◌, [], length, map, slice_get, vec_capacity, IfOk, OnOk, OnErr, IsOk};
ghost use Rattle.std.specs.Option.{option_copied};
ghost use Rattle.zs_query.specs.Marks.{mark_of, key_of, passes};
ghost use Rattle.zs_query.specs.Kept.{put};

use crate::replies::Replies;
use crate::timestamps::is_below;
use indexmap::IndexMap;
use std::alloc::{AllocError, Global};
use std::marker::Model;
use zs_keys::KeyExpr;
use zs_requests::clone_key;
use zs_sample::{Reply, Sample, Timestamp};

/// The newest reply of each key, in the order of the keys' first ones.
#[derive(Drop)]
pub(crate) struct KeptReplies {
    by_key: IndexMap<KeyExpr<'static>, Reply>,
}

impl Model for KeptReplies {
    ghost use Rattle.std.specs.Prelude.{List};
    ghost use Rattle.std.specs.List.{AllByRecursion};
    ghost use Rattle.indexmap.specs.IndexMap.{values};
    ghost use Rattle.zs_sample.specs.Reply.{Replied};
    ghost use Rattle.zs_query.specs.ByKey.{HasOwnKey};

    ghost Value = { List Replied };

    ghost view = { λ k. values k.by_key };

    ghost invariant = { λ k. AllByRecursion HasOwnKey k.by_key.entries };
}

impl KeptReplies {
    /// No reply.
    pub(crate) fn new(alloc: Global) -> KeptReplies
        ensures { result ≡ [] }
    {
        KeptReplies {
            by_key: IndexMap::new(alloc),
        }
    }

    /// How many there are.
    pub(crate) fn len(&self) -> usize
        ensures { result ≡ length self.now }
    {
        self.by_key.len()
    }

    /// The reply at that place, if there is one.
    pub(crate) fn get(&self, index: usize) -> Option<&Reply>
        ensures { option_copied result ≡ slice_get self.now index }
    {
        let Some((_key, reply)) = self.by_key.get_index(index) else {
            return None;
        };
        Some(reply)
    }

    /// Whether a sample isn't older than the reply of its key.
    pub(crate) fn lets_pass(&self, sample: &Sample) -> bool
        ensures { result ≡ passes (map mark_of self.now) (record { key = sample.now.key_expr.text; timestamp = sample.now.timestamp }) }
    {
        match self.by_key.get(sample.key_expr()) {
            Some(last) => !is_below(sample.timestamp(), timestamp_of(last)),
            None => true,
        }
    }

    /// Keeps a reply in the place of that of its key.
    pub(crate) fn put(&mut self, alloc: Global, reply: Reply) -> Result<(), AllocError>
        requires { IsOk reply.result }
        ensures ok { OnOk result (self.new ≡ put key_of reply self.old) }
        ensures err { OnErr result (self.new ≡ self.old) }
    {
        let Ok(sample) = reply.result() else {
            unreachable!()
        };
        let key = clone_key(sample.key_expr(), alloc)?;
        self.by_key.insert(key, reply)?;
        Ok(())
    }

    /// Copies of the replies.
    pub(crate) fn copies(&self, alloc: Global) -> Result<Vec<Reply>, AllocError>
        ensures { IfOk result (λ copies. copies.items ≡ self.now) }
    {
        let mut copies = Vec::with_capacity(alloc, self.len())?;
        for reply in self.by_key.values() {
            copies.push(reply.try_clone(alloc)?)?;
        }
        Ok(copies)
    }

    /// The replies, in the room that there is.
    pub(crate) fn into_replies(self, mut room: Vec<Reply>) -> Replies
        requires empty { room.items ≡ [] }
        requires room { length self ≤ vec_capacity room }
        ensures { result ≡ self }
    {
        for reply in self.by_key.into_values() {
            let _ = room.push(reply);
        }
        Replies::of(room)
    }
}

/// The timestamp of what a reply brings.
fn timestamp_of(reply: &Reply) -> Option<&Timestamp>
    ensures { option_copied result ≡ (mark_of reply.now).timestamp }
{
    match reply.result() {
        Ok(sample) => sample.timestamp(),
        Err(_) => None,
    }
}
