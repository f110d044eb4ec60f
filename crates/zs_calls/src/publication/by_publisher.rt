//! Publications of publishers.
ghost use Rattle.std.specs.Prelude.{◌≡◌, None, Some, false, IfOk, IfErr, OnOk};
ghost use Rattle.zs_cell.specs.Steps.{Accepts, Stops};
ghost use Rattle.zs_held.specs.Numbers.{numbered_at};
ghost use Rattle.zs_calls.specs.Publications.{published, put_of, Deletes, publish_by_event, publisher_put_event, publisher_delete_event};

use super::{PublicationBuilder, PublicationBuilderDelete, PublicationBuilderPut, update_of};
use crate::events::publish_by;
use std::alloc::{AllocError, Global};
use std::marker::Model;
use std::sync::Wait;
use zs_cell::{Books, Caller, Item, Session, SessionError};
use zs_events::{Event, PushBody};
use zs_handlers::Handler;
use zs_sample::{Encoding, SourceInfo, Timestamp, ZBytes};

/// A publisher of a session, by its number. Contracts see both.
#[derive(Drop)]
pub struct ByPublisher<'a, H, B: Books> {
    session: &'a Session<H, B>,
    id: u32,
}

impl<'a, H, B: Books> Model for ByPublisher<'a, H, B> {
    ghost use Rattle.zs_calls.specs.Publications.{ByPublisherSeen};

    ghost Value = { ByPublisherSeen };

    ghost view = { λ p. record { session = p.session.now; id = p.id } };
}

impl<'a, H, B: Books> ByPublisher<'a, H, B> {
    /// The publisher of that number. Whether it lives shows only when something is published.
    fn of(session: &'a Session<H, B>, id: u32) -> ByPublisher<'a, H, B>
        ensures { result ≡ record { session = session.now; id = id } }
    {
        ByPublisher { session, id }
    }

    /// The session of the publisher.
    fn session(&self) -> &'a Session<H, B>
        ensures { result.now ≡ self.now.session }
    {
        self.session
    }

    /// The number of the publisher.
    fn id(&self) -> u32
        ensures { result ≡ self.now.id }
    {
        self.id
    }
}

impl<'a, H, B: Books, T> PublicationBuilder<ByPublisher<'a, H, B>, T> {
    /// With the moment at which it was made, or none.
    pub fn timestamp(mut self, timestamp: Option<Timestamp>) -> Self
        ensures { result ≡ record self.entry { timestamp = timestamp } }
    {
        self.timestamp = timestamp;
        self
    }

    /// With who made it, or without.
    pub fn source_info(mut self, source_info: Option<SourceInfo>) -> Self
        ensures { result ≡ record self.entry { source_info = source_info } }
    {
        self.source_info = source_info;
        self
    }

    /// With bytes of the application's own beside the payload, or none.
    pub fn attachment(mut self, attachment: Option<ZBytes>) -> Self
        ensures { result ≡ record self.entry { attachment = attachment } }
    {
        self.attachment = attachment;
        self
    }
}

impl<'a, H, B: Books> PublicationBuilder<ByPublisher<'a, H, B>, PublicationBuilderPut> {
    /// A put of that publisher of the session.
    pub fn of(session: &'a Session<H, B>, id: u32, payload: ZBytes) -> Self
        ensures { result ≡ published (record { session = session.now; id = id }) (put_of payload) }
    {
        PublicationBuilder::new(
            ByPublisher::of(session, id),
            PublicationBuilderPut::of(payload),
        )
    }
}

impl<'a, H, B: Books> PublicationBuilder<ByPublisher<'a, H, B>, PublicationBuilderPut> {
    /// With that encoding. Without one it has its publisher's.
    pub fn encoding(mut self, encoding: Encoding) -> Self
        ensures { result ≡ record self.entry { kind = record self.entry.kind { encoding = Some encoding } } }
    {
        self.kind = self.kind.with_encoding(encoding);
        self
    }
}

impl<'a, H, B: Books> PublicationBuilder<ByPublisher<'a, H, B>, PublicationBuilderDelete> {
    /// A delete of that publisher of the session.
    pub fn of(session: &'a Session<H, B>, id: u32) -> Self
        ensures { result ≡ published (record { session = session.now; id = id }) Deletes }
    {
        PublicationBuilder::new(ByPublisher::of(session, id), PublicationBuilderDelete)
    }
}

impl<'a, H: Drop, B: Books> PublicationBuilder<ByPublisher<'a, H, B>, PublicationBuilderPut> {
    // The event that it is.
    fn into_event(self, alloc: Global) -> Result<Event, AllocError>
        ensures event { IfOk result (λ event. event ≡ publisher_put_event self.entry) }
        ensures number { IfOk result (λ event. numbered_at event ≡ false) }
    {
        let PublicationBuilder {
            by,
            kind,
            timestamp,
            source_info,
            attachment,
        } = self;
        let body = kind.into_body(alloc)?;
        let update = update_of(alloc, body, timestamp, source_info, attachment)?;
        Ok(publish_by(by.id(), update))
    }
}

impl<'a, H: Drop, B: Books> PublicationBuilder<ByPublisher<'a, H, B>, PublicationBuilderDelete> {
    // The event that it is.
    fn into_event(self, alloc: Global) -> Result<Event, AllocError>
        ensures event { IfOk result (λ event. event ≡ publisher_delete_event self.entry) }
        ensures number { IfOk result (λ event. numbered_at event ≡ false) }
    {
        let PublicationBuilder {
            by,
            kind,
            timestamp,
            source_info,
            attachment,
        } = self;
        drop(kind);
        let body = PushBody::Delete;
        let update = update_of(alloc, body, timestamp, source_info, attachment)?;
        Ok(publish_by(by.id(), update))
    }
}

impl<'a, H: Handler<Item> + Drop, B: Books> PublicationBuilder<
    ByPublisher<'a, H, B>,
    PublicationBuilderPut,
> {
    /// Puts it.
    ///
    /// # Errors
    ///
    /// `Refused`: `SessionClosedError` behind the close, `NotFound` where no publisher of that number lives. Else
    /// `NoMemory`: no event was taken.
    pub fn wait<R: Wait>(self, rt: &R, caller: &mut Caller<B>) -> Result<(), SessionError>
        ensures ok { OnOk result (Accepts B.Entries.settings H.evicts caller.old caller.new (publisher_put_event self.entry) false None) }
        ensures err { IfErr result (λ why. Stops B.Entries.settings H.evicts caller.old caller.new (publisher_put_event self.entry) false why) }
    {
        let session = self.by.session();
        let Ok(event) = self.into_event(session.alloc()) else {
            return Err(SessionError::NoMemory);
        };
        session.tell(rt, event, caller)
    }
}

impl<'a, H: Handler<Item> + Drop, B: Books> PublicationBuilder<
    ByPublisher<'a, H, B>,
    PublicationBuilderDelete,
> {
    /// Deletes the value of the publisher's key.
    ///
    /// # Errors
    ///
    /// `Refused`: `SessionClosedError` behind the close, `NotFound` where no publisher of that number lives. Else
    /// `NoMemory`: no event was taken.
    pub fn wait<R: Wait>(self, rt: &R, caller: &mut Caller<B>) -> Result<(), SessionError>
        ensures ok { OnOk result (Accepts B.Entries.settings H.evicts caller.old caller.new (publisher_delete_event self.entry) false None) }
        ensures err { IfErr result (λ why. Stops B.Entries.settings H.evicts caller.old caller.new (publisher_delete_event self.entry) false why) }
    {
        let session = self.by.session();
        let Ok(event) = self.into_event(session.alloc()) else {
            return Err(SessionError::NoMemory);
        };
        session.tell(rt, event, caller)
    }
}
