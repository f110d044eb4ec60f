//! What is kept of an open liveliness get.
use zs_keys::KeyExpr;

/// A liveliness get that is open.
#[derive(Debug)]
pub struct LivelinessGet {
    pub number: u32,
    pub key: KeyExpr<'static>,
    /// The cancellation token that ends it.
    pub cancellation_token: Option<u32>,
    /// The moment, in milliseconds, at which it ends whatever is missing.
    pub deadline: u64,
}

impl Drop for LivelinessGet {
    /// Lets go of the memory of its key.
    fn drop(self) {
        let LivelinessGet {
            number: _,
            key,
            cancellation_token: _,
            deadline: _,
        } = self;
        drop(key);
    }
}
