//! The sides of a link.

/// One of two linked sessions.
#[derive(Clone, Copy, Debug, PartialEq, Eq, Hash)]
pub enum LinkSide {
    /// The first: it has the settings as they are given.
    A,
    /// The second: it has an identifier and a tag of its own, and else the same settings.
    B,
}
