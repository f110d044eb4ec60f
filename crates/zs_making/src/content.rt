//! What a publication or a reply says of its key.

ghost use Rattle.std.specs.Prelude.{◌≡◌, [], IfOk};
ghost use Rattle.zs_events.specs.Kinds.{local_content, incoming_content};
ghost use Rattle.zs_events.specs.Updates.{body_of};
ghost use Rattle.zs_sample.specs.Encoding.{encoding_of};
ghost use Rattle.zs_model.specs.Publications.{sample_on, handed_payload, handed_encoding};
ghost use Rattle.zs_model.specs.Publishers.{published_by};
ghost use Rattle.zs_model.specs.Questions.{sent_value};
ghost use Rattle.zs_keys.specs.Key.{undeclared};
ghost use Rattle.zs_model.specs.Replies.{reply_content};

use std::alloc::{AllocError, Global};
use zs_events::{Content, PublicationQuality, Update, default_encoding};
use zs_keys::KeyExpr;
use zs_model::{PubRow, into_owned};
use zs_sample::{
    Encoding, Locality, Priority, QoSType, Reliability, Sample, SampleFields, SampleKind, Text,
    ZBytes,
};
use zs_wire::{Body, Push, Value};

/// What a publisher publishes has its destination and qualities, and its encoding unless another one is named.
pub fn published_by(alloc: Global, row: &PubRow, update: &Update) -> Result<Content, AllocError>
    ensures { IfOk result (λ made. made ≡ published_by row.now update.now) }
{
    let settings = row.settings.get();
    let body = update.body_with(alloc, &settings.encoding)?;
    Ok(local_content(settings.destination, body, settings.quality))
}

/// A publication that is made here.
pub fn local_content(destination: Locality, body: Body, quality: PublicationQuality) -> Content
    ensures { result ≡ local_content destination body quality }
{
    Content {
        local: true,
        destination,
        body,
        qos: quality.qos,
        reliable: quality.reliable,
    }
}

/// A publication that came in. It shares the memory of the payload and the attachment.
pub fn incoming_content(alloc: Global, push: &Push) -> Result<Content, AllocError>
    ensures { IfOk result (λ made. made ≡ incoming_content push.now) }
{
    let body = push.body.try_clone(alloc)?;
    Ok(Content {
        local: false,
        destination: Locality::Any,
        body,
        qos: push.qos,
        reliable: push.reliable,
    })
}

/// What a reply says of its key.
pub(crate) fn reply_content(qos: QoSType, body: Body) -> Content
    ensures { result ≡ reply_content qos body }
{
    Content {
        local: false,
        destination: Locality::Any,
        body,
        qos,
        reliable: true,
    }
}

/// What an application says of a key where nobody else names an encoding. The memory of the payload and the attachment is
/// shared.
pub fn plain_body(alloc: Global, update: &Update) -> Result<Body, AllocError>
    ensures { IfOk result (λ made. made ≡ body_of [] update.now) }
{
    let unnamed = Text::empty();
    update.body_with(alloc, &unnamed)
}

/// A value as it is sent. The memory of the payload is shared.
pub fn sent_value(alloc: Global, value: &Value) -> Result<Value, AllocError>
    ensures { IfOk result (λ sent. sent ≡ sent_value value.now) }
{
    let payload = value.payload.try_clone(alloc)?;
    let encoding = text_of_encoding(alloc, &value.encoding)?;
    Ok(Value { payload, encoding })
}

/// The encoding that a text names: the empty text is the default.
fn text_of_encoding(alloc: Global, encoding: &Text) -> Result<Text, AllocError>
    ensures { IfOk result (λ made. made ≡ encoding_of encoding.now) }
{
    if encoding.is_empty() {
        return Ok(default_encoding());
    }
    encoding.try_clone(alloc)
}

/// The sample of a publication.
pub fn sample_of(alloc: Global, key: KeyExpr<'_>, content: Content) -> Result<Sample, AllocError>
    requires { key ≡ undeclared key.text }
    ensures { IfOk result (λ sample. sample ≡ sample_on key.entry.text (content)) }
{
    let key_expr = into_owned(alloc, key)?;
    let qos = content.qos;
    let body = content.body;
    let kind = body.kind;
    let timestamp = body.timestamp;
    let source_info = body.source;
    let (payload, encoding, attachment) = body.into_parts();
    Ok(Sample::from_fields(SampleFields {
        key_expr,
        payload: handed_payload(kind, payload),
        kind,
        encoding: handed_encoding(kind, encoding),
        timestamp,
        express: qos.express,
        priority: Priority::handed_out(qos.priority),
        congestion_control: qos.congestion,
        reliability: Reliability::of(content.reliable),
        source_info,
        attachment,
    }))
}

/// The payload that is handed out: a deletion has none.
fn handed_payload(kind: SampleKind, payload: ZBytes) -> ZBytes
    ensures { result ≡ handed_payload kind payload }
{
    match kind {
        SampleKind::Put => payload,
        SampleKind::Delete => ZBytes::new(),
    }
}

/// The encoding: a deletion has the default one.
fn handed_encoding(kind: SampleKind, encoding: Text) -> Encoding
    ensures { result ≡ handed_encoding kind encoding }
{
    match kind {
        SampleKind::Put => Encoding::of_text(encoding),
        SampleKind::Delete => Encoding::ZENOH_BYTES,
    }
}
