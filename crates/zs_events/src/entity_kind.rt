//! The sorts of entities that an event can name by number.
/// The sorts of entities that an application can undeclare.
#[derive(Clone, Copy, Debug, PartialEq, Eq, Hash)]
pub enum EntityKind {
    Sub,
    Pub,
    Queryable,
    Querier,
    Listener,
    Token,
    Lsub,
}

/// The sorts of entities that can be left to themselves: they live on, and can no longer be named.
#[derive(Clone, Copy, Debug, PartialEq, Eq, Hash)]
pub enum BackgroundKind {
    Sub,
    Queryable,
    Listener,
    Lsub,
}

/// The sorts of entities whose matching can be asked for.
#[derive(Clone, Copy, Debug, PartialEq, Eq, Hash)]
pub enum ParentKind {
    Pub,
    Querier,
}
