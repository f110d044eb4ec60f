//! Publications: puts and deletes of a session on a key, and of its publishers.
ghost use Rattle.std.specs.Prelude.{◌≡◌, Some, IfOk};
ghost use Rattle.zs_calls.specs.Publications.{put_body, put_of, published};

use crate::texts::encoding_text;
pub use by_publisher::ByPublisher;
pub use on_key::OnKey;
use std::alloc::{AllocError, Global};
use std::marker::Model;
use zs_events::{PushBody, Shared, Update};
use zs_sample::{Encoding, SourceInfo, Timestamp, ZBytes};

mod by_publisher;
mod on_key;

/// What is put: its bytes, and what they are. Contracts see both.
#[derive(Drop)]
pub struct PublicationBuilderPut {
    payload: ZBytes,
    encoding: Option<Encoding>,
}

impl Model for PublicationBuilderPut {
    ghost use Rattle.zs_calls.specs.Publications.{PutSeen};

    ghost Value = { PutSeen };

    ghost view = { λ p. record { payload = p.payload; encoding = p.encoding } };
}

impl PublicationBuilderPut {
    // A payload of which nothing else is said.
    pub(crate) fn of(payload: ZBytes) -> PublicationBuilderPut
        ensures { result ≡ put_of payload }
    {
        PublicationBuilderPut {
            payload,
            encoding: None,
        }
    }

    // With that encoding.
    pub(crate) fn with_encoding(self, encoding: Encoding) -> PublicationBuilderPut
        ensures { result ≡ record self { encoding = Some encoding } }
    {
        PublicationBuilderPut {
            payload: self.payload,
            encoding: Some(encoding),
        }
    }

    // What is put, as an event carries it.
    pub(crate) fn into_body(self, alloc: Global) -> Result<PushBody, AllocError>
        ensures { IfOk result (λ body. body ≡ put_body self) }
    {
        let PublicationBuilderPut { payload, encoding } = self;
        let encoding = encoding_text(alloc, &encoding)?;
        Ok(PushBody::Put { payload, encoding })
    }
}

/// That the key's value is deleted.
#[derive(Drop)]
pub struct PublicationBuilderDelete;

impl Model for PublicationBuilderDelete {
    ghost use Rattle.zs_calls.specs.Publications.{DeleteSeen, Deletes};

    ghost Value = { DeleteSeen };

    ghost view = { λ _. Deletes };
}

/// A put of a session on a key.
pub type SessionPutBuilder<'a, H, B> = PublicationBuilder<OnKey<'a, H, B>, PublicationBuilderPut>;

/// A delete of a session on a key.
pub type SessionDeleteBuilder<'a, H, B> = PublicationBuilder<
    OnKey<'a, H, B>,
    PublicationBuilderDelete,
>;

/// A put of a publisher.
pub type PublisherPutBuilder<'a, H, B> = PublicationBuilder<
    ByPublisher<'a, H, B>,
    PublicationBuilderPut,
>;

/// A delete of a publisher.
pub type PublisherDeleteBuilder<'a, H, B> = PublicationBuilder<
    ByPublisher<'a, H, B>,
    PublicationBuilderDelete,
>;

/// A publication in the making. Contracts see who publishes, what, and what else is said of it.
#[must_use = "nothing is published before `wait`"]
#[derive(Drop)]
pub struct PublicationBuilder<P, T> {
    by: P,
    kind: T,
    timestamp: Option<Timestamp>,
    source_info: Option<SourceInfo>,
    attachment: Option<ZBytes>,
}

impl<P, T> Model for PublicationBuilder<P, T> {
    ghost use Rattle.zs_calls.specs.Publications.{Publication};

    ghost Value = { Publication P T };

    ghost view = { λ b. record { by = b.by; kind = b.kind; timestamp = b.timestamp; source_info = b.source_info; attachment = b.attachment } };
}

impl<P, T> PublicationBuilder<P, T> {
    // A publication of which nothing else is said.
    pub(crate) fn new(by: P, kind: T) -> PublicationBuilder<P, T>
        ensures { result ≡ published by kind }
    {
        PublicationBuilder {
            by,
            kind,
            timestamp: None,
            source_info: None,
            attachment: None,
        }
    }
}

// What is published, with what else is said of it.
fn update_of(
    alloc: Global,
    body: PushBody,
    timestamp: Option<Timestamp>,
    source: Option<SourceInfo>,
    attachment: Option<ZBytes>,
) -> Result<Shared<Update>, AllocError>
    ensures { IfOk result (λ update. update ≡ record { body = body; timestamp = timestamp; source = source; attachment = attachment }) }
{
    Shared::new(
        alloc,
        Update {
            body,
            timestamp,
            source,
            attachment,
        },
    )
}
