//! Whose gate it is.
use zs_events::Kind;

/// Whose gate it is.
#[derive(Clone, Copy, Debug, PartialEq, Eq, PartialOrd, Ord, Hash)]
pub enum Key {
    /// The session's.
    Session,
    /// That of a cancellation token, by its number.
    CancelToken(u32),
    /// That of an entity or a get, by its kind and number: a handler's own, or that of a publisher or querier, which is
    /// its listeners' and gets' parent.
    Of(Kind, u32),
}

/// What a post goes by.
#[derive(Clone, Copy, Debug, PartialEq, Eq)]
pub struct Name {
    /// Its key.
    pub key: Key,
    /// That of its parent's gate.
    pub parent: Option<Key>,
    /// That of its cancellation token's gate.
    pub token: Option<Key>,
    /// How many entries the journal had when it was opened.
    pub place: u64,
}
