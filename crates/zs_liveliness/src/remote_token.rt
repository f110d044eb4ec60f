//! What is kept of a liveliness token of the other side.
use zs_keyed::Keyed;
use zs_keys::KeyExpr;

/// A liveliness token that the other side told.
pub struct RemoteToken {
    /// The other side's number for it.
    pub number: u32,
    pub key: KeyExpr<'static>,
}

impl Drop for RemoteToken {
    /// Lets go of the memory of its key.
    fn drop(self) {
        let RemoteToken { number: _, key } = self;
        drop(key);
    }
}

impl Keyed for RemoteToken {
    ghost number = { λ row. row.number };

    ghost text = { λ row. row.key.text };

    /// The other side's number for it, by which the rows ascend.
    fn number(&self) -> u32 {
        self.number
    }

    /// The key that the other side declared it on, by which the tree finds it.
    fn key(&self) -> &KeyExpr<'static> {
        &self.key
    }
}
