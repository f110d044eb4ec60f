//! The forms of lines by which the application publishes, each read from the fields behind its word.

ghost use Rattle.std.specs.Prelude.{◌≡◌, IfOk};
ghost use Rattle.zs_grammar.specs.Grammar.{pub_of, publish_of, publish_by_of};

use std::alloc::{AllocError, Global};
use zs_events::{Event, PublisherSettings, Shared, Update};
use zs_parts::Fields;
use zs_sample::SampleKind;

/// `pub LOC KEY` and its options
#[tactic(auto, unfolding(zs_parts::specs::Parts::form))]
pub(crate) fn parse_pub(alloc: Global, fields: &mut Fields<'_>) -> Result<Option<Event>, AllocError>
    ensures { IfOk result (λ found. found ≡ pub_of fields.old) }
{
    let Some(destination) = fields.locality() else {
        return Ok(None);
    };
    let Some(key) = fields.key(alloc)? else {
        return Ok(None);
    };
    let encoding = fields.encoding(alloc)?;
    let settings = PublisherSettings {
        destination,
        encoding,
        quality: fields.quality(),
    };
    let settings = Shared::new(alloc, settings)?;
    Ok(fields.finish(Event::Pub { key, settings }))
}

/// `put LOC KEY BYTES` or `delete LOC KEY`, and the options
#[tactic(auto, unfolding(zs_parts::specs::Parts::form))]
pub(crate) fn parse_publish(
    alloc: Global,
    kind: SampleKind,
    fields: &mut Fields<'_>,
) -> Result<Option<Event>, AllocError>
    ensures { IfOk result (λ found. found ≡ publish_of kind fields.old) }
{
    let Some(destination) = fields.locality() else {
        return Ok(None);
    };
    let Some(key) = fields.key(alloc)? else {
        return Ok(None);
    };
    let Some(body) = fields.own_body(alloc, kind)? else {
        return Ok(None);
    };
    let timestamp = fields.timestamp();
    let quality = fields.quality();
    let source = fields.source();
    let attachment = fields.attachment(alloc)?;
    let update = Update {
        body,
        timestamp,
        source,
        attachment,
    };
    let update = Shared::new(alloc, update)?;
    Ok(fields.finish(Event::Publish {
        destination,
        key,
        update,
        quality,
    }))
}

/// `pput N BYTES` or `pdel N`, and the options
#[tactic(auto, unfolding(zs_parts::specs::Parts::form))]
pub(crate) fn parse_publish_by(
    alloc: Global,
    kind: SampleKind,
    fields: &mut Fields<'_>,
) -> Result<Option<Event>, AllocError>
    ensures { IfOk result (λ found. found ≡ publish_by_of kind fields.old) }
{
    let Some(id) = fields.id() else {
        return Ok(None);
    };
    let Some(body) = fields.push_body(alloc, kind)? else {
        return Ok(None);
    };
    let timestamp = fields.timestamp();
    let source = fields.source();
    let attachment = fields.attachment(alloc)?;
    let update = Update {
        body,
        timestamp,
        source,
        attachment,
    };
    let update = Shared::new(alloc, update)?;
    Ok(fields.finish(Event::PublishBy { id, update }))
}
