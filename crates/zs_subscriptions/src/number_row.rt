//! What is kept of a declared number.
use zs_keys::KeyExpr;

/// A declared number with its key, and the ids of all subscribers whose key has a key in common with it.
#[derive(Drop)]
pub(crate) struct NumberRow {
    pub(crate) number: u16,
    pub(crate) key: KeyExpr<'static>,
    pub(crate) matches: Vec<u32>,
}
