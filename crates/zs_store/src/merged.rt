//! What a store answers to a write that is merged into it.

/// What merging a write into a store did.
#[derive(Clone, Copy, Debug, PartialEq, Eq)]
pub enum Merged {
    /// The key was not there: the entry stands at it now.
    New,
    /// What stands at the key is not below the entry, and stays.
    Kept,
    /// What stood at the key is below the entry, which took its place.
    Replaced,
}
