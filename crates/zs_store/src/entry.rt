//! What a store keeps at a key.
use zs_bytes::ZBytes;
use zs_wire::{SampleKind, Timestamp};

/// What was written at a key. Of two entries the one with the later timestamp is the newer one. Where the timestamps are the
/// same, a deletion is newer than a put, and then the greater bytes are.
#[derive(Drop)]
pub struct Entry {
    pub kind: SampleKind,
    pub payload: ZBytes,
    pub timestamp: Timestamp,
}
