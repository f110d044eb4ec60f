//! The new value of a key, or its end, as an application says it and as a message carries it.
ghost use Rattle.std.specs.Prelude.{◌≡◌, [], ◌++◌, Some, IfOk, unwrap_or};
ghost use Rattle.zs_sample.specs.Encoding.{encoding_of};
ghost use Rattle.zs_events.specs.Updates.{body_by, body_of, default_encoding};

use std::alloc::{AllocError, Global};
use zs_sample::{SampleKind, SourceInfo, Text, Timestamp, ZBytes};
use zs_wire::Body;

/// Whether a key has a new value, or none any more (`PushBody` of the Zenoh protocol).
#[derive(Debug, Drop)]
pub enum PushBody {
    /// It has this value.
    Put {
        payload: ZBytes,
        /// What the payload is. Without one it is the publisher's where a publisher says it, else the default one, and so
        /// is the empty text.
        encoding: Option<Text>,
    },
    /// It has none.
    Delete,
}

/// What an application says of a key, with a publication or a reply.
#[derive(Debug, Drop)]
pub struct Update {
    pub body: PushBody,
    pub timestamp: Option<Timestamp>,
    pub source: Option<SourceInfo>,
    /// Bytes of the application's own beside the payload.
    pub attachment: Option<ZBytes>,
}

impl Update {
    /// What it says, as it stands in a message; where it names no encoding, it has that one. The memory of the payload and
    /// the attachment is shared.
    pub fn body_with(&self, alloc: Global, unnamed: &Text) -> Result<Body, AllocError>
        ensures { IfOk result (λ made. made ≡ body_of unnamed.now self.now) }
    {
        let attachment = clone_bytes(&self.attachment, alloc)?;
        match &self.body {
            PushBody::Put { payload, encoding } => {
                let payload = payload.try_clone(alloc)?;
                let encoding = text_or(encoding, unnamed).try_clone(alloc)?;
                Ok(Body {
                    kind: SampleKind::Put,
                    payload,
                    encoding: or_default(encoding),
                    timestamp: self.timestamp,
                    source: self.source,
                    attachment,
                })
            }
            PushBody::Delete => Ok(Body {
                kind: SampleKind::Delete,
                payload: ZBytes::new(),
                encoding: default_encoding(),
                timestamp: self.timestamp,
                source: self.source,
                attachment,
            }),
        }
    }
}

/// A text, or that one where there is none.
fn text_or<'a>(named: &'a Option<Text>, unnamed: &'a Text) -> &'a Text
    ensures { result.now ≡ unwrap_or named.now unnamed.now }
{
    match named {
        Some(named) => named,
        None => unnamed,
    }
}

/// The encoding that a text names: the empty text is the default.
fn or_default(encoding: Text) -> Text
    ensures { result ≡ encoding_of encoding }
{
    if encoding.is_empty() {
        default_encoding()
    } else {
        encoding
    }
}

/// The encoding where none is named.
pub fn default_encoding() -> Text
    ensures { result ≡ default_encoding }
{
    Text::zenoh_bytes()
}

/// The same bytes in the same memory, where there are any.
pub fn clone_bytes(bytes: &Option<ZBytes>, alloc: Global) -> Result<Option<ZBytes>, AllocError>
    ensures { IfOk result (λ copy. copy ≡ bytes.now) }
{
    match bytes {
        Some(bytes) => Ok(Some(bytes.try_clone(alloc)?)),
        None => Ok(None),
    }
}
