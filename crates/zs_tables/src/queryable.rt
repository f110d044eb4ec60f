//! What is kept of a queryable of this session.
use zs_keyed::Keyed;
use zs_keys::KeyExpr;
use zs_sample::Locality;

/// A live queryable.
pub struct QueryableRow {
    /// Its entity number.
    pub id: u32,
    /// Whose requests it takes.
    pub origin: Locality,
    /// Whether it can answer alone for all keys that its own includes.
    pub complete: bool,
    pub key: KeyExpr<'static>,
}

impl Drop for QueryableRow {
    /// Lets go of the memory of its key.
    fn drop(self) {
        let QueryableRow {
            id: _,
            origin: _,
            complete: _,
            key,
        } = self;
        drop(key);
    }
}

impl Keyed for QueryableRow {
    ghost number = { λ row. row.id };

    ghost text = { λ row. row.key.text };

    /// Its entity number, by which the rows ascend.
    fn number(&self) -> u32 {
        self.id
    }

    /// The key that it was declared on, by which the tree finds it.
    fn key(&self) -> &KeyExpr<'static> {
        &self.key
    }
}
