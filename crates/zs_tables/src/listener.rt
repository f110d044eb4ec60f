//! Listeners to matching: what each listens for, and how many match it.
use zs_keyed::{Counted, Keyed};
use zs_keys::KeyExpr;
use zs_sample::Locality;

/// What a listener listens for.
#[derive(Clone, Copy, Debug, PartialEq, Eq)]
pub enum Sought {
    /// Subscribers whose key has a key in common with its own.
    Subscribers,
    /// Queryables whose key has a key in common with its own.
    Queryables,
    /// Complete queryables whose key includes its own.
    CompleteQueryables,
}

/// A live listener: it hears whether anyone matches a publisher or a querier.
pub struct ListenerRow {
    /// Its entity number.
    pub id: u32,
    /// The number of the publisher or querier.
    pub parent: u32,
    /// Whether those of this session count, those of the network, or both.
    pub destination: Locality,
    pub sought: Sought,
    /// The key of the publisher or querier.
    pub key: KeyExpr<'static>,
}

impl Drop for ListenerRow {
    /// Lets go of the memory of its key.
    fn drop(self) {
        let ListenerRow {
            id: _,
            parent: _,
            destination: _,
            sought: _,
            key,
        } = self;
        drop(key);
    }
}

/// A live listener, and how many match it.
#[derive(Drop)]
pub struct Listener {
    pub row: ListenerRow,
    pub count: usize,
}

impl Keyed for Listener {
    ghost number = { λ l. l.row.id };

    ghost text = { λ l. l.row.key.text };

    /// Its entity number, by which the rows ascend.
    fn number(&self) -> u32 {
        self.row.id
    }

    /// The key of its publisher or querier, by which the tree finds it.
    fn key(&self) -> &KeyExpr<'static> {
        &self.row.key
    }
}

impl Counted for Listener {
    ghost counted = { λ n l. record l { count = n } };

    /// Sets how many match it.
    fn set_count(&mut self, count: usize) {
        self.count = count;
    }
}
