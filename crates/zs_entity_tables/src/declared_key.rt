//! How often a declared key is held.

/// How many declarations of a key were not given back yet, as contracts see it.
#[derive(Clone, Copy, Debug, PartialEq, Eq, Hash, Drop)]
pub struct KeyHolders {
    /// The key's number.
    pub number: u16,
    /// At least 1.
    pub count: u64,
}
