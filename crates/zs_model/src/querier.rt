//! What a session keeps of a querier.

use crate::publisher::Prefix;
use zs_events::QuerySettings;
use zs_keys::KeyExpr;

/// A live querier.
#[derive(Debug)]
pub struct QuerierRow {
    pub id: u32,
    pub key: KeyExpr<'static>,
    /// The declared part of its key, if it was named by one.
    pub prefix: Option<Prefix>,
    pub settings: QuerySettings,
}

impl Drop for QuerierRow {
    /// Lets go of the memory of its key; its settings hold none.
    fn drop(self) {
        let QuerierRow {
            id: _,
            key,
            prefix: _,
            settings: _,
        } = self;
        drop(key);
    }
}
