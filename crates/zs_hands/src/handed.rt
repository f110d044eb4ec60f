//! What became of an item that was to be handed to a handler.
use crate::calling::Under;
use zs_posts::Passes;

/// What became of an item that was to be handed to a handler. Only a call of the handler gives a `Done`.
#[derive(Debug, Drop)]
pub enum Handed<T, D> {
    /// The handler was called, and has the item.
    Called(D),
    /// The handler was called, and gave this item up: the one that it was given, or an older one in its place.
    Evicted(T, D),
    /// One of the gates was marked, so the handler wasn't called.
    Skipped(T),
}

/// A call that was made or skipped: what it tells, which gates it was made inside of, and the passes, to be given back.
#[derive(Drop)]
pub struct RanCall<T, D> {
    pub report: Handed<T, D>,
    pub under: Option<Under>,
    pub passes: Passes,
}
