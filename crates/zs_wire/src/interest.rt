//! The kinds of an interest, with which a session asks to hear of others' declarations.
/// Of which declarations a session asks to hear.
#[derive(Clone, Copy, Debug, PartialEq, Eq, Hash)]
pub enum InterestMode {
    /// Those that stand now.
    Current,
    /// Those that come from now on.
    Future,
    /// Both.
    CurrentFuture,
    /// None any more.
    Final,
}

/// What the declarations are of.
#[derive(Clone, Copy, Debug, PartialEq, Eq, Hash)]
pub enum InterestWhat {
    Subscribers,
    Queryables,
    Tokens,
    /// Nothing is named, as where an interest in subscribers or queryables ends.
    Nothing,
}
