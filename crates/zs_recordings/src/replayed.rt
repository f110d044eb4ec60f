//! What playing a recording again comes to.

/// What a recording was found to be when it was played again.
#[derive(Clone, Copy, Debug, PartialEq, Eq)]
pub enum Replayed {
    /// Of each of its events, which are so many, it says what comes of the event.
    Same(u64),
    /// Of this event, from 1, it says something else, and of none before it.
    Differs(u64),
}
