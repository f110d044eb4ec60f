//! How a publication names its key: by a declared number, or by its text.
use zs_keys::KeyExpr;
use zs_wire::Mapping;

/// How a publication names its key.
#[derive(Clone, Copy)]
pub enum KeyRef<'a> {
    /// By a declared number.
    Number(Mapping, u16),
    /// By the key itself.
    Text(&'a KeyExpr<'a>),
}
