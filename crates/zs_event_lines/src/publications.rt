//! Lines that put or delete, and of publishers.

ghost use Rattle.std.specs.Prelude.{◌≡◌, IfOk};
ghost use Rattle.std.specs.String.{string_bytes};
ghost use Rattle.zs_events.specs.declared.event.Event.TheVariants.{Pub, Publish, PublishBy, Reply};
ghost use Rattle.zs_event_lines.specs.Slots.{printed, IsPrinted};
ghost use Rattle.zs_event_lines.specs.Lines.{body_kind, publish_word, publish_by_word, reply_word, line_of};

use crate::lines::append_line;
use crate::shown::Shown;
use std::alloc::AllocError;
use zs_events::{
    KeyArg, PublicationQuality, PublisherSettings, PushBody, ReplyQuality, Shared, Update,
};
use zs_sample::Locality;

/// The line that declares a publisher.
pub(crate) fn append_publisher<'a>(
    out: &mut String,
    key: &'a KeyArg,
    settings: &'a Shared<PublisherSettings>,
) -> Result<bool, AllocError>
    ensures { IfOk result (λ told.
        IsPrinted (printed (line_of (Pub key.now settings.now))) told (string_bytes out.old) (string_bytes out.new)) }
{
    let settings = settings.get();
    append_line(
        out,
        "pub",
        &[
            Shown::Locality(settings.destination),
            Shown::Key(key),
            Shown::Encoding(&settings.encoding),
            Shown::Quality(settings.quality),
        ],
    )
}

/// The first word of a line that puts or deletes on a key.
fn publish_word(body: &PushBody) -> &'static str
    ensures { result.now ≡ publish_word (body_kind body.now) }
{
    match body {
        PushBody::Put { .. } => "put",
        PushBody::Delete => "delete",
    }
}

/// The line that puts or deletes a key's value.
pub(crate) fn append_publish<'a>(
    out: &mut String,
    destination: Locality,
    key: &'a KeyArg,
    update: &'a Shared<Update>,
    quality: PublicationQuality,
) -> Result<bool, AllocError>
    ensures { IfOk result (λ told.
        IsPrinted (printed (line_of (Publish destination key.now update.now quality)))
        told (string_bytes out.old) (string_bytes out.new)) }
{
    let update = update.get();
    append_line(
        out,
        publish_word(&update.body),
        &[
            Shown::Locality(destination),
            Shown::Key(key),
            Shown::OwnUpdate(&update.body),
            Shown::Timestamp(update.timestamp),
            Shown::Quality(quality),
            Shown::Source(update.source),
            Shown::Attachment(&update.attachment),
        ],
    )
}

/// The first word of a line by which a publisher puts or deletes.
fn publish_by_word(body: &PushBody) -> &'static str
    ensures { result.now ≡ publish_by_word (body_kind body.now) }
{
    match body {
        PushBody::Put { .. } => "pput",
        PushBody::Delete => "pdel",
    }
}

/// The line by which a publisher puts or deletes.
pub(crate) fn append_publish_by(
    out: &mut String,
    id: u32,
    update: &Shared<Update>,
) -> Result<bool, AllocError>
    ensures { IfOk result (λ told.
        IsPrinted (printed (line_of (PublishBy id update.now))) told (string_bytes out.old) (string_bytes out.new)) }
{
    let update = update.get();
    append_line(
        out,
        publish_by_word(&update.body),
        &[
            Shown::Number(id),
            Shown::Update(&update.body),
            Shown::Timestamp(update.timestamp),
            Shown::Source(update.source),
            Shown::Attachment(&update.attachment),
        ],
    )
}

/// The first word of a line that answers a query by a put or by a deletion.
fn reply_word(body: &PushBody) -> &'static str
    ensures { result.now ≡ reply_word (body_kind body.now) }
{
    match body {
        PushBody::Put { .. } => "reply",
        PushBody::Delete => "replydel",
    }
}

/// The line that answers a query.
pub(crate) fn append_reply<'a>(
    out: &mut String,
    value: u32,
    key: &'a KeyArg,
    update: &'a Shared<Update>,
    quality: ReplyQuality,
) -> Result<bool, AllocError>
    ensures { IfOk result (λ told.
        IsPrinted (printed (line_of (Reply value key.now update.now quality)))
        told (string_bytes out.old) (string_bytes out.new)) }
{
    let update = update.get();
    append_line(
        out,
        reply_word(&update.body),
        &[
            Shown::Number(value),
            Shown::Key(key),
            Shown::OwnUpdate(&update.body),
            Shown::Timestamp(update.timestamp),
            Shown::ReplyQuality(quality),
            Shown::Source(update.source),
            Shown::Attachment(&update.attachment),
        ],
    )
}
