//! What a session keeps of a publisher.

use zs_events::{PublisherSettings, Shared};
use zs_keys::KeyExpr;

/// A number of this session that stood for the first bytes of a key's text when the key was named.
#[derive(Clone, Copy, Debug, PartialEq, Eq, Hash, Drop)]
pub struct Prefix {
    pub number: u16,
    /// How many bytes.
    pub len: u32,
}

/// A live publisher.
#[derive(Debug)]
pub struct PubRow {
    pub id: u32,
    pub key: KeyExpr<'static>,
    /// The declared part of its key, if it was named by one.
    pub prefix: Option<Prefix>,
    pub settings: Shared<PublisherSettings>,
}

impl Drop for PubRow {
    /// Lets go of the memory of its key and of its share of the settings.
    fn drop(self) {
        let PubRow {
            id: _,
            key,
            prefix: _,
            settings,
        } = self;
        drop(key);
        drop(settings);
    }
}
