//! What a store takes of what a session hands over.

ghost use Rattle.std.specs.Prelude.{◌≡◌, OnOk};
ghost use Rattle.zs_keeping.specs.Keeping.{with_sample, with_numbered, with_item, with_effect, with_effects};

use std::alloc::{AllocError, Global};
use zs_events::{Effect, Effects, HandOver, Kind};
use zs_sample::Sample;
use zs_store::{Entry, Store};

/// Has a store take what effects hand to the subscriber of that number, in their order.
///
/// # Errors
///
/// Want of memory alone. Then it may have taken some of it.
pub fn take_effects(
    alloc: Global,
    store: &mut Store,
    id: u32,
    effects: &Effects,
) -> Result<(), AllocError>
    ensures { OnOk result (store.new ≡ with_effects id effects.now store.old) }
{
    let items = effects.as_slice();
    for effect in items {
        take_effect(alloc, store, id, effect)?;
    }
    Ok(())
}

/// Has a store take what an effect hands to the subscriber of that number, if it hands anything over.
fn take_effect(alloc: Global, store: &mut Store, id: u32, effect: &Effect) -> Result<(), AllocError>
    ensures { OnOk result (store.new ≡ with_effect id effect.now store.old) }
{
    match effect {
        Effect::Hand(item) => take_item(alloc, store, id, item),
        _ => Ok(()),
    }
}

/// Has a store take an item that is handed over, if it is a sample for the subscriber of that number.
fn take_item(alloc: Global, store: &mut Store, id: u32, item: &HandOver) -> Result<(), AllocError>
    ensures { OnOk result (store.new ≡ with_item id item.now store.old) }
{
    match item {
        HandOver::Sample {
            kind,
            id: number,
            sample,
        } => take_numbered(alloc, store, *kind, *number, id, sample.get()),
        _ => Ok(()),
    }
}

/// Has a store take a sample that is handed to `number` of that kind, where that is the subscriber `id`.
fn take_numbered(
    alloc: Global,
    store: &mut Store,
    kind: Kind,
    number: u32,
    id: u32,
    sample: &Sample,
) -> Result<(), AllocError>
    ensures { OnOk result (store.new ≡ with_numbered kind number id sample.now store.old) }
{
    match kind {
        Kind::Subscriber => {
            if number == id {
                take_sample(alloc, store, sample)
            } else {
                Ok(())
            }
        }
        _ => Ok(()),
    }
}

/// Has a store take what a subscriber is handed: what the sample writes at its key, if it tells its moment.
///
/// # Errors
///
/// Want of memory alone; the store is as it was then.
pub fn take_sample(alloc: Global, store: &mut Store, sample: &Sample) -> Result<(), AllocError>
    ensures { OnOk result (store.new ≡ with_sample sample.now store.old) }
{
    let Some(timestamp) = sample.timestamp() else {
        return Ok(());
    };
    let payload = sample.payload().try_clone(alloc)?;
    let entry = Entry {
        kind: sample.kind(),
        payload,
        timestamp: *timestamp,
    };
    let _merged = store.merge(sample.key_expr(), entry)?;
    Ok(())
}
