//! What is kept of a subscriber.
use zs_keyed::Keyed;
use zs_keys::KeyExpr;
use zs_sample::Locality;

/// A live subscriber.
pub struct SubRow {
    /// Its entity number.
    pub id: u32,
    /// Whose publications it takes.
    pub origin: Locality,
    pub key: KeyExpr<'static>,
}

impl Drop for SubRow {
    /// Lets go of the memory of its key.
    fn drop(self) {
        let SubRow {
            id: _,
            origin: _,
            key,
        } = self;
        drop(key);
    }
}

impl Keyed for SubRow {
    ghost number = { λ row. row.id };

    ghost text = { λ row. row.key.text };

    /// Its entity number, by which the rows ascend.
    fn number(&self) -> u32 {
        self.id
    }

    /// The key that it was declared on, by which the tree finds it.
    fn key(&self) -> &KeyExpr<'static> {
        &self.key
    }
}
