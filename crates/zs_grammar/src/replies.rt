//! The forms of lines by which the application answers queries, each read from the fields behind its word.

ghost use Rattle.std.specs.Prelude.{◌≡◌, IfOk};
ghost use Rattle.zs_grammar.specs.Grammar.{reply_of, reply_error_of, share_of, finish_of};

use std::alloc::{AllocError, Global};
use zs_events::{Event, Shared, Update};
use zs_parts::Fields;
use zs_sample::SampleKind;
use zs_wire::Value;

/// `reply N KEY BYTES` or `replydel N KEY`, and the options
#[tactic(auto, unfolding(zs_parts::specs::Parts::form))]
pub(crate) fn parse_reply(
    alloc: Global,
    kind: SampleKind,
    fields: &mut Fields<'_>,
) -> Result<Option<Event>, AllocError>
    ensures { IfOk result (λ found. found ≡ reply_of kind fields.old) }
{
    let Some(value) = fields.id() else {
        return Ok(None);
    };
    let Some(key) = fields.key(alloc)? else {
        return Ok(None);
    };
    let Some(body) = fields.own_body(alloc, kind)? else {
        return Ok(None);
    };
    let timestamp = fields.timestamp();
    let quality = fields.reply_quality();
    let source = fields.source();
    let attachment = fields.attachment(alloc)?;
    let update = Update {
        body,
        timestamp,
        source,
        attachment,
    };
    let update = Shared::new(alloc, update)?;
    Ok(fields.finish(Event::Reply {
        value,
        key,
        update,
        quality,
    }))
}

/// `replyerr N BYTES` and its option
#[tactic(auto, unfolding(zs_parts::specs::Parts::form))]
pub(crate) fn parse_reply_error(
    alloc: Global,
    fields: &mut Fields<'_>,
) -> Result<Option<Event>, AllocError>
    ensures { IfOk result (λ found. found ≡ reply_error_of fields.old) }
{
    let Some(value) = fields.id() else {
        return Ok(None);
    };
    let Some(payload) = fields.payload(alloc)? else {
        return Ok(None);
    };
    let encoding = fields.encoding(alloc)?;
    let error = Shared::new(alloc, Value { payload, encoding })?;
    Ok(fields.finish(Event::ReplyErr { value, error }))
}

/// `share N`
#[tactic(auto, unfolding(zs_parts::specs::Parts::form))]
pub(crate) fn parse_share(fields: &mut Fields<'_>) -> Option<Event>
    ensures { result ≡ share_of fields.old }
{
    let value = fields.id()?;
    fields.finish(Event::Share { value })
}

/// `finish N`
#[tactic(auto, unfolding(zs_parts::specs::Parts::form))]
pub(crate) fn parse_finish(fields: &mut Fields<'_>) -> Option<Event>
    ensures { result ≡ finish_of fields.old }
{
    let value = fields.id()?;
    fields.finish(Event::Finish { value })
}
