//! A store: the cause of each answer, and a deletion that an older put doesn't undo.

use std::alloc::{AllocError, Global};
use zs_bytes::ZBytes;
use zs_keys::{KeyError, KeyExpr};
use zs_store::{Entry, Merged, Store};
use zs_wire::{SampleKind, Timestamp};

/// What is written: a kind, bytes, a time, and what that does.
static WRITES: [(SampleKind, &[u8], u64, Merged); 6] = [
    (SampleKind::Put, b"b", 5, Merged::New),
    (SampleKind::Put, b"a", 5, Merged::Kept),
    (SampleKind::Put, b"b", 5, Merged::Kept),
    (SampleKind::Put, b"ba", 5, Merged::Replaced),
    (SampleKind::Delete, b"", 5, Merged::Replaced),
    (SampleKind::Put, b"c", 4, Merged::Kept),
];

/// Merges what is written at a key: whether that does what it is said to do.
fn merge(
    alloc: Global,
    store: &mut Store,
    key: &KeyExpr<'_>,
    write: &(SampleKind, &[u8], u64, Merged),
) -> Result<bool, AllocError> {
    let (kind, bytes, time, merged) = write;
    let entry = Entry {
        kind: *kind,
        payload: ZBytes::from_slice(alloc, bytes)?,
        timestamp: Timestamp { time: *time, id: 1 },
    };
    Ok(store.merge(key, entry)? == *merged)
}

/// The place of the first write that does something else.
fn first_wrong(alloc: Global, store: &mut Store) -> Result<Option<usize>, KeyError> {
    let key = KeyExpr::new("r/k")?;
    for at in 0..WRITES.len() {
        if !merge(alloc, store, &key, &WRITES[at])? {
            return Ok(Some(at));
        }
    }
    Ok(None)
}

/// An older entry changes nothing; of one timestamp the greater payload stands, and a deletion over a put.
#[test]
fn newest_entries_stand(rt: HostRuntime) {
    let mut store = Store::new(rt.alloc());
    assert!(rt; first_wrong(rt.alloc(), &mut store) == Ok(None));
}
