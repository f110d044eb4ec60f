//! Which of two entries is the newer one.

ghost use Rattle.std.specs.Prelude.{◌≡◌, IfOk};
ghost use Rattle.std.specs.Ordering.{nat_cmp, ordering_then, is_lt};
ghost use Rattle.std.specs.Cmp.Lexicographic.{slice_cmp};
ghost use Rattle.zs_bytes.specs.Payload.{bytes_of};
ghost use Rattle.zs_store.specs.Entry.{seen, is_below, kind_rank, entry_order};

use crate::entry::Entry;
use std::alloc::{AllocError, Global};
use std::cmp::Ordering;
use zs_bytes::ZBytes;
use zs_wire::{SampleKind, Timestamp};

/// Whether an entry is below another one. Memory is asked for only where all but the payloads is the same, and only for a payload
/// in more than one piece.
pub(crate) fn is_below(old: &Entry, new: &Entry, alloc: Global) -> Result<bool, AllocError>
    ensures { IfOk result (λ below. below ≡ is_below (seen old.now) (seen new.now)) }
{
    let order = order(old, new, alloc)?;
    Ok(order.is_lt())
}

/// The order of two entries: by timestamp, then by kind, and last by the bytes of their payloads, which are looked at
/// only where the others are the same.
fn order(old: &Entry, new: &Entry, alloc: Global) -> Result<Ordering, AllocError>
    ensures { IfOk result (λ order. order ≡ entry_order (seen old.now) (seen new.now)) }
{
    match time_order(&old.timestamp, &new.timestamp) {
        Ordering::Less => Ok(Ordering::Less),
        Ordering::Greater => Ok(Ordering::Greater),
        Ordering::Equal => match kind_order(old.kind, new.kind) {
            Ordering::Less => Ok(Ordering::Less),
            Ordering::Greater => Ok(Ordering::Greater),
            Ordering::Equal => {
                let order = payload_order(&old.payload, &new.payload, alloc)?;
                Ok(order)
            }
        },
    }
}

/// The order of two timestamps: by time, and of one time by the identifier of who gave it.
fn time_order(old: &Timestamp, new: &Timestamp) -> Ordering
    ensures { result ≡ ordering_then (nat_cmp old.now.time new.now.time) (nat_cmp old.now.id new.now.id) }
{
    match old.time.cmp(&new.time) {
        Ordering::Less => Ordering::Less,
        Ordering::Equal => old.id.cmp(&new.id),
        Ordering::Greater => Ordering::Greater,
    }
}

/// A put is below a deletion: of two writes with one timestamp the deletion stays.
fn kind_order(old: SampleKind, new: SampleKind) -> Ordering
    ensures { result ≡ nat_cmp (kind_rank old) (kind_rank new) }
{
    match (old, new) {
        (SampleKind::Put, SampleKind::Put) => Ordering::Equal,
        (SampleKind::Put, SampleKind::Delete) => Ordering::Less,
        (SampleKind::Delete, SampleKind::Put) => Ordering::Greater,
        (SampleKind::Delete, SampleKind::Delete) => Ordering::Equal,
    }
}

/// The order of two payloads by their bytes. One in more than one piece is joined first, which wants memory.
fn payload_order(old: &ZBytes, new: &ZBytes, alloc: Global) -> Result<Ordering, AllocError>
    ensures { IfOk result (λ order. order ≡ slice_cmp nat_cmp (bytes_of old.now) (bytes_of new.now)) }
{
    let old = old.to_bytes(alloc)?;
    let new = new.to_bytes(alloc)?;
    let old: &[u8] = &old;
    let new: &[u8] = &new;
    Ok(old.cmp(&new))
}
