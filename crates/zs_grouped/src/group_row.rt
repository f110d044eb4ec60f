//! One group: its number and its members.
use std::collections::BTreeSet;

/// The entities that share a declaration, and the number that it was declared with.
#[derive(Drop)]
pub(crate) struct GroupRow {
    pub(crate) number: u32,
    pub(crate) members: BTreeSet<u32>,
}
