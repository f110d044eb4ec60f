//! The events by which an application says a value of a key.

ghost use Rattle.std.specs.Prelude.{◌≡◌, IfOk};
ghost use Rattle.std.specs.declared.option.Option.TheVariants.{Some};
ghost use Rattle.zs_forms.specs.Publications.{put_of, delete_of, put_by_of, delete_by_of, publication_of};

use crate::keys::KeyForm;
use crate::quality::PublicationForm;
use crate::updates::ExtrasForm;
use std::alloc::{AllocError, Global};
use zs_events::{Event, Shared, Update};

/// A put of these bytes on a key. There is none where a number of `how` says nothing, or the key or the encoding is not UTF-8.
pub fn put(
    alloc: Global,
    key: &KeyForm<'_>,
    payload: &[u8],
    how: &PublicationForm,
    extras: &ExtrasForm<'_>,
) -> Result<Option<Event>, AllocError>
    ensures { IfOk result (λ found. found ≡ put_of key.now payload.now how.now extras.now) }
{
    let Some(update) = extras.put(alloc, payload)? else {
        return Ok(None);
    };
    publication(alloc, key, how, update)
}

/// A deletion of a key's value.
pub fn delete(
    alloc: Global,
    key: &KeyForm<'_>,
    how: &PublicationForm,
    extras: &ExtrasForm<'_>,
) -> Result<Option<Event>, AllocError>
    ensures { IfOk result (λ found. found ≡ delete_of key.now how.now extras.now) }
{
    let update = extras.delete(alloc)?;
    publication(alloc, key, how, update)
}

/// A put of these bytes by the publisher of that number. Without an encoding it has the publisher's.
pub fn put_by(
    alloc: Global,
    id: u32,
    payload: &[u8],
    extras: &ExtrasForm<'_>,
) -> Result<Option<Event>, AllocError>
    ensures { IfOk result (λ found. found ≡ put_by_of id payload.now extras.now) }
{
    let Some(update) = extras.put(alloc, payload)? else {
        return Ok(None);
    };
    let update = Shared::new(alloc, update)?;
    Ok(Some(Event::PublishBy { id, update }))
}

/// A deletion by the publisher of that number.
pub fn delete_by(alloc: Global, id: u32, extras: &ExtrasForm<'_>) -> Result<Event, AllocError>
    ensures { IfOk result (λ made. made ≡ delete_by_of id extras.now) }
{
    let update = extras.delete(alloc)?;
    let update = Shared::new(alloc, update)?;
    Ok(Event::PublishBy { id, update })
}

/// The publication of an update.
fn publication(
    alloc: Global,
    key: &KeyForm<'_>,
    how: &PublicationForm,
    update: Update,
) -> Result<Option<Event>, AllocError>
    ensures { IfOk result (λ found. found ≡ publication_of key.now how.now (Some update)) }
{
    let Some(destination) = how.destination() else {
        drop(update);
        return Ok(None);
    };
    let Some(quality) = how.quality() else {
        drop(update);
        return Ok(None);
    };
    let Some(key) = key.read(alloc)? else {
        drop(update);
        return Ok(None);
    };
    let update = Shared::new(alloc, update)?;
    Ok(Some(Event::Publish {
        destination,
        key,
        update,
        quality,
    }))
}
