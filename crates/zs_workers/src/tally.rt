//! What a run is asked to do, and what it comes to.
/// Which callers put.
#[derive(Clone, Copy, Debug, PartialEq, Eq)]
pub struct Workers {
    /// How many callers there are.
    pub callers: u64,
    /// How often each of them puts.
    pub puts: u64,
}

/// What a run came to.
#[derive(Clone, Copy, Debug, PartialEq, Eq)]
pub struct Worked {
    /// How many events the session's journal has.
    pub entries: u64,
    /// How many of them the callers count together.
    pub shares: u64,
    /// How many samples the journal's turns hand to subscribers.
    pub handed: u128,
}
