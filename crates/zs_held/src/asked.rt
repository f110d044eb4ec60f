//! Gates that a session was asked for.

use zs_posts::Key;

/// That a session was asked for the gate of a key, in the hold of its lock in which it took an event.
#[derive(Clone, Copy, Debug, PartialEq, Eq)]
pub struct Asked {
    /// Whose gate it is.
    pub key: Key,
    /// Whether the session still held it: then it was marked and given out.
    pub held: bool,
}
