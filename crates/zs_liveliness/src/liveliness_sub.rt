//! What is kept of a subscriber to liveliness.
use zs_keyed::Keyed;
use zs_keys::KeyExpr;

/// A live subscriber to liveliness.
pub struct LivelinessSub {
    /// Its entity number.
    pub id: u32,
    /// Whether it hears of tokens that were there before it.
    pub history: bool,
    pub key: KeyExpr<'static>,
}

impl Drop for LivelinessSub {
    /// Lets go of the memory of its key.
    fn drop(self) {
        let LivelinessSub {
            id: _,
            history: _,
            key,
        } = self;
        drop(key);
    }
}

impl Keyed for LivelinessSub {
    ghost number = { λ row. row.id };

    ghost text = { λ row. row.key.text };

    /// Its entity number, by which the rows ascend.
    fn number(&self) -> u32 {
        self.id
    }

    /// The key that it was declared on, by which the tree finds it.
    fn key(&self) -> &KeyExpr<'static> {
        &self.key
    }
}
