//! The events by which an application declares and ends what it declared.

ghost use Rattle.std.specs.Prelude.{◌≡◌, IfOk};
ghost use Rattle.zs_forms.specs.Declarations.{declared_key_of, undeclared_key_of, subscriber_of, publisher_of, queryable_of, token_of, liveliness_subscriber_of, undeclared_of, background_of, listened_of, status_of, settings_of};

use crate::keys::KeyForm;
use crate::kinds::{background_kind, entity_kind, parent_kind};
use crate::quality::{PublicationForm, locality};
use crate::texts::text_in;
use std::alloc::{AllocError, Global};
use zs_events::{Chan, Event, PublisherSettings, Shared};

/// The declaration of a key, if its text is UTF-8.
pub fn declare_key(alloc: Global, key: &KeyForm<'_>) -> Result<Option<Event>, AllocError>
    ensures { IfOk result (λ found. found ≡ declared_key_of key.now) }
{
    let Some(key) = key.read(alloc)? else {
        return Ok(None);
    };
    Ok(Some(Event::Key { key }))
}

/// A declared key that is given back.
pub fn undeclare_key(alloc: Global, key: &KeyForm<'_>) -> Result<Option<Event>, AllocError>
    ensures { IfOk result (λ found. found ≡ undeclared_key_of key.now) }
{
    let Some(key) = key.read(alloc)? else {
        return Ok(None);
    };
    Ok(Some(Event::UndeclareKey { key }))
}

/// A subscriber that takes publications of that origin.
pub fn declare_subscriber(
    alloc: Global,
    key: &KeyForm<'_>,
    origin: u8,
) -> Result<Option<Event>, AllocError>
    ensures { IfOk result (λ found. found ≡ subscriber_of key.now origin) }
{
    let Some(origin) = locality(origin) else {
        return Ok(None);
    };
    let Some(key) = key.read(alloc)? else {
        return Ok(None);
    };
    Ok(Some(Event::Sub {
        origin,
        key,
        to: Chan::Print,
    }))
}

/// A publisher whose puts are of that encoding where they name none. Without a byte it is the default one.
pub fn declare_publisher(
    alloc: Global,
    key: &KeyForm<'_>,
    how: &PublicationForm,
    encoding: &[u8],
) -> Result<Option<Event>, AllocError>
    ensures { IfOk result (λ found. found ≡ publisher_of key.now how.now encoding.now) }
{
    let Some(settings) = settings(alloc, how, encoding)? else {
        return Ok(None);
    };
    let Some(key) = key.read(alloc)? else {
        drop(settings);
        return Ok(None);
    };
    let settings = Shared::new(alloc, settings)?;
    Ok(Some(Event::Pub { key, settings }))
}

/// What a publisher is declared with. There is none where a number of `how` says nothing, or the encoding is no UTF-8.
fn settings(
    alloc: Global,
    how: &PublicationForm,
    encoding: &[u8],
) -> Result<Option<PublisherSettings>, AllocError>
    ensures { IfOk result (λ found. found ≡ settings_of how.now encoding.now) }
{
    let Some(destination) = how.destination() else {
        return Ok(None);
    };
    let Some(quality) = how.quality() else {
        return Ok(None);
    };
    let Some(encoding) = text_in(alloc, encoding)? else {
        return Ok(None);
    };
    Ok(Some(PublisherSettings {
        destination,
        encoding,
        quality,
    }))
}

/// A queryable that is handed requests of that origin.
pub fn declare_queryable(
    alloc: Global,
    key: &KeyForm<'_>,
    origin: u8,
    complete: bool,
) -> Result<Option<Event>, AllocError>
    ensures { IfOk result (λ found. found ≡ queryable_of key.now origin complete) }
{
    let Some(origin) = locality(origin) else {
        return Ok(None);
    };
    let Some(key) = key.read(alloc)? else {
        return Ok(None);
    };
    Ok(Some(Event::Queryable {
        origin,
        complete,
        key,
    }))
}

/// A liveliness token.
pub fn declare_token(alloc: Global, key: &KeyForm<'_>) -> Result<Option<Event>, AllocError>
    ensures { IfOk result (λ found. found ≡ token_of key.now) }
{
    let Some(key) = key.read(alloc)? else {
        return Ok(None);
    };
    Ok(Some(Event::Token { key }))
}

/// A subscriber to liveliness, which is handed the tokens that are there already where it asks for their history.
pub fn declare_liveliness_subscriber(
    alloc: Global,
    key: &KeyForm<'_>,
    history: bool,
) -> Result<Option<Event>, AllocError>
    ensures { IfOk result (λ found. found ≡ liveliness_subscriber_of key.now history) }
{
    let Some(key) = key.read(alloc)? else {
        return Ok(None);
    };
    Ok(Some(Event::Lsub { history, key }))
}

/// The end of what was declared under that number, if there is such a kind.
pub fn undeclare(kind: u8, id: u32) -> Option<Event>
    ensures { result ≡ undeclared_of kind id }
{
    let kind = entity_kind(kind)?;
    Some(Event::Undeclare { kind, id })
}

/// What was declared under that number is left to itself.
pub fn background(kind: u8, id: u32) -> Option<Event>
    ensures { result ≡ background_of kind id }
{
    let kind = background_kind(kind)?;
    Some(Event::Background { kind, id })
}

/// A listener to the matching of that publisher or querier.
pub fn listen(kind: u8, id: u32) -> Option<Event>
    ensures { result ≡ listened_of kind id }
{
    let parent = parent_kind(kind)?;
    Some(Event::Listen { parent, id })
}

/// The question whether anyone matches that publisher or querier.
pub fn status(kind: u8, id: u32) -> Option<Event>
    ensures { result ≡ status_of kind id }
{
    let parent = parent_kind(kind)?;
    Some(Event::Status { parent, id })
}
