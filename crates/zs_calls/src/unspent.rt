//! What comes back of a call that spends a value, where it fails.
use zs_cell::SessionError;

/// A value that was to be spent and wasn't, and why.
#[derive(Drop)]
pub struct Unspent<V> {
    pub why: SessionError,
    pub value: V,
}
