//! What is kept of the subscribers and queryables that the other side declared.
use zs_keyed::Keyed;
use zs_keys::KeyExpr;

/// A subscriber that the other side declared.
pub struct RemoteSubscriber {
    /// The number by which the other side knows it.
    pub number: u32,
    pub key: KeyExpr<'static>,
}

impl Drop for RemoteSubscriber {
    /// Lets go of the memory of its key.
    fn drop(self) {
        let RemoteSubscriber { number: _, key } = self;
        drop(key);
    }
}

/// A queryable that the other side declared.
pub struct RemoteQueryable {
    /// The number by which the other side knows it.
    pub number: u32,
    /// Whether it can answer alone for all keys that its own includes.
    pub complete: bool,
    pub key: KeyExpr<'static>,
}

impl Drop for RemoteQueryable {
    /// Lets go of the memory of its key.
    fn drop(self) {
        let RemoteQueryable {
            number: _,
            complete: _,
            key,
        } = self;
        drop(key);
    }
}

impl Keyed for RemoteSubscriber {
    ghost number = { λ row. row.number };

    ghost text = { λ row. row.key.text };

    /// The number that the other side gave it, by which the rows ascend.
    fn number(&self) -> u32 {
        self.number
    }

    /// The key that the other side declared it on, by which the tree finds it.
    fn key(&self) -> &KeyExpr<'static> {
        &self.key
    }
}

impl Keyed for RemoteQueryable {
    ghost number = { λ row. row.number };

    ghost text = { λ row. row.key.text };

    /// The number that the other side gave it, by which the rows ascend.
    fn number(&self) -> u32 {
        self.number
    }

    /// The key that the other side declared it on, by which the tree finds it.
    fn key(&self) -> &KeyExpr<'static> {
        &self.key
    }
}
