//! What handlers are handed.

use crate::query::Query;
use zs_sample::{MatchingStatus, Reply, Sample};
use zs_shared::Shared;

/// What a handler is handed. Samples and replies are held in the place where the session's journal has them.
#[derive(Drop)]
pub enum Item {
    /// A sample for a subscriber.
    Sample(Shared<Sample>),
    /// A reply for a get.
    Reply(Shared<Reply>),
    /// A query for a queryable.
    Query(Query),
    /// For a listener: whether anyone matches, which is not what it was told before.
    Matching(MatchingStatus),
}
