//! Publications of a session on a key.
ghost use Rattle.std.specs.Prelude.{◌≡◌, None, Some, false, IfOk, IfErr, OnOk};
ghost use Rattle.zs_sample.specs.Quality.{number_of};
ghost use Rattle.zs_cell.specs.Steps.{Accepts, Stops};
ghost use Rattle.zs_held.specs.Numbers.{numbered_at};
ghost use Rattle.zs_calls.specs.Publications.{on_key, is_reliable, publish_event, session_put_event, session_delete_event};

use super::{PublicationBuilder, PublicationBuilderDelete, PublicationBuilderPut, update_of};
use crate::events::publish;
use std::alloc::{AllocError, Global};
use std::marker::Model;
use std::sync::Wait;
use zs_cell::{Books, Caller, Item, Session, SessionError, key_arg};
use zs_events::{Event, PublicationQuality, PushBody, Shared, Update};
use zs_handlers::Handler;
use zs_keys::KeyExpr;
use zs_sample::{
    CongestionControl, Encoding, Locality, Priority, QoS, QoSBuilder, QoSType, Reliability,
    SourceInfo, Timestamp, ZBytes,
};

/// A session that publishes on a key, for whom and how. Contracts see its fields.
#[derive(Drop)]
pub struct OnKey<'a, H, B: Books> {
    session: &'a Session<H, B>,
    key: KeyExpr<'a>,
    destination: Locality,
    qos: QoSBuilder,
    reliability: Reliability,
}

impl<'a, H, B: Books> Model for OnKey<'a, H, B> {
    ghost use Rattle.zs_calls.specs.Publications.{OnKeySeen};

    ghost Value = { OnKeySeen };

    ghost view = { λ k. record { session = k.session.now; key = k.key; destination = k.destination; qos = k.qos; reliability = k.reliability } };
}

// Whether it is sent again where it was lost on the way.
fn is_reliable(reliability: Reliability) -> bool
    ensures { result ≡ is_reliable reliability }
{
    match reliability {
        Reliability::BestEffort => false,
        Reliability::Reliable => true,
    }
}

impl<'a, H, B: Books> OnKey<'a, H, B> {
    // A session that publishes on a key, of which nothing else is said.
    pub(crate) fn of(session: &'a Session<H, B>, key: KeyExpr<'a>) -> OnKey<'a, H, B>
        ensures { result ≡ on_key session.now key.entry }
    {
        let qos = QoSType {
            priority: 5,
            congestion: CongestionControl::Drop,
            express: false,
        };
        OnKey {
            session,
            key,
            destination: Locality::Any,
            qos: QoSBuilder::from(QoS::from(qos)),
            reliability: Reliability::Reliable,
        }
    }

    /// The session that publishes.
    fn session(&self) -> &'a Session<H, B>
        ensures { result.now ≡ self.now.session }
    {
        self.session
    }

    // With that quality of service in place of its own.
    fn with_qos(mut self, qos: QoSBuilder) -> OnKey<'a, H, B>
        ensures { result ≡ record self.entry { qos = qos } }
    {
        self.qos = qos;
        self
    }

    /// With that priority; the rest of the quality of service stays.
    fn with_priority(self, priority: Priority) -> OnKey<'a, H, B>
        ensures { result ≡ record self.entry { qos = record self.entry.qos { priority = number_of priority } } }
    {
        let qos = self.qos.priority(priority);
        self.with_qos(qos)
    }

    /// With that congestion control; the rest of the quality of service stays.
    fn with_congestion(self, congestion_control: CongestionControl) -> OnKey<'a, H, B>
        ensures { result ≡ record self.entry { qos = record self.entry.qos { congestion = congestion_control } } }
    {
        let qos = self.qos.congestion_control(congestion_control);
        self.with_qos(qos)
    }

    /// Sent at once or batched; the rest of the quality of service stays.
    fn with_express(self, express: bool) -> OnKey<'a, H, B>
        ensures { result ≡ record self.entry { qos = record self.entry.qos { express = express } } }
    {
        let qos = self.qos.express(express);
        self.with_qos(qos)
    }

    /// With that reliability in place of its own.
    fn with_reliability(mut self, reliability: Reliability) -> OnKey<'a, H, B>
        ensures { result ≡ record self.entry { reliability = reliability } }
    {
        self.reliability = reliability;
        self
    }

    /// For the subscribers of that destination, in place of its own.
    fn with_destination(mut self, destination: Locality) -> OnKey<'a, H, B>
        ensures { result ≡ record self.entry { destination = destination } }
    {
        self.destination = destination;
        self
    }
}

impl<'a, H: Drop, B: Books> OnKey<'a, H, B> {
    // The event by which it publishes that.
    fn into_event(self, alloc: Global, update: Shared<Update>) -> Result<Event, AllocError>
        ensures event { IfOk result (λ event. event ≡ publish_event self.entry update) }
        ensures number { IfOk result (λ event. numbered_at event ≡ false) }
    {
        let tag = self.session.tag();
        let key = key_arg(alloc, tag, &self.key)?;
        let quality = PublicationQuality {
            qos: QoSType::from(QoS::from(self.qos)),
            reliable: is_reliable(self.reliability),
        };
        Ok(publish(self.destination, key, update, quality))
    }
}

impl<'a, H, B: Books, T> PublicationBuilder<OnKey<'a, H, B>, T> {
    /// With the moment at which it was made, or none.
    pub fn timestamp(mut self, timestamp: Option<Timestamp>) -> Self
        ensures { result ≡ record self.entry { timestamp = timestamp } }
    {
        self.timestamp = timestamp;
        self
    }

    /// With who made it, or without.
    pub fn source_info(mut self, source_info: Option<SourceInfo>) -> Self
        ensures { result ≡ record self.entry { source_info = source_info } }
    {
        self.source_info = source_info;
        self
    }

    /// With bytes of the application's own beside the payload, or none.
    pub fn attachment(mut self, attachment: Option<ZBytes>) -> Self
        ensures { result ≡ record self.entry { attachment = attachment } }
    {
        self.attachment = attachment;
        self
    }

    /// What is done with it where a queue on the way is full: by itself it is dropped.
    pub fn congestion_control(mut self, congestion_control: CongestionControl) -> Self
        ensures { result ≡ record self.entry { by = record self.entry.by { qos = record self.entry.by.qos { congestion = congestion_control } } } }
    {
        self.by = self.by.with_congestion(congestion_control);
        self
    }

    /// How urgent it is: by itself it is `Data`.
    pub fn priority(mut self, priority: Priority) -> Self
        ensures { result ≡ record self.entry { by = record self.entry.by { qos = record self.entry.by.qos { priority = number_of priority } } } }
    {
        self.by = self.by.with_priority(priority);
        self
    }

    /// Whether it is sent at once, and not batched: by itself it is batched.
    pub fn express(mut self, express: bool) -> Self
        ensures { result ≡ record self.entry { by = record self.entry.by { qos = record self.entry.by.qos { express = express } } } }
    {
        self.by = self.by.with_express(express);
        self
    }

    /// Whether it is sent again where it was lost on the way: by itself it is.
    pub fn reliability(mut self, reliability: Reliability) -> Self
        ensures { result ≡ record self.entry { by = record self.entry.by { reliability = reliability } } }
    {
        self.by = self.by.with_reliability(reliability);
        self
    }

    /// Whose subscribers are handed it: by itself all are.
    pub fn allowed_destination(mut self, destination: Locality) -> Self
        ensures { result ≡ record self.entry { by = record self.entry.by { destination = destination } } }
    {
        self.by = self.by.with_destination(destination);
        self
    }
}

impl<'a, H, B: Books> PublicationBuilder<OnKey<'a, H, B>, PublicationBuilderPut> {
    /// With that encoding. Without one it has the default one.
    pub fn encoding(mut self, encoding: Encoding) -> Self
        ensures { result ≡ record self.entry { kind = record self.entry.kind { encoding = Some encoding } } }
    {
        self.kind = self.kind.with_encoding(encoding);
        self
    }
}

impl<'a, H: Drop, B: Books> PublicationBuilder<OnKey<'a, H, B>, PublicationBuilderPut> {
    // The event that it is.
    fn into_event(self, alloc: Global) -> Result<Event, AllocError>
        ensures event { IfOk result (λ event. event ≡ session_put_event self.entry) }
        ensures number { IfOk result (λ event. numbered_at event ≡ false) }
    {
        let PublicationBuilder {
            by,
            kind,
            timestamp,
            source_info,
            attachment,
        } = self;
        let body = kind.into_body(alloc)?;
        let update = update_of(alloc, body, timestamp, source_info, attachment)?;
        by.into_event(alloc, update)
    }
}

impl<'a, H: Drop, B: Books> PublicationBuilder<OnKey<'a, H, B>, PublicationBuilderDelete> {
    // The event that it is.
    fn into_event(self, alloc: Global) -> Result<Event, AllocError>
        ensures event { IfOk result (λ event. event ≡ session_delete_event self.entry) }
        ensures number { IfOk result (λ event. numbered_at event ≡ false) }
    {
        let PublicationBuilder {
            by,
            kind,
            timestamp,
            source_info,
            attachment,
        } = self;
        drop(kind);
        let body = PushBody::Delete;
        let update = update_of(alloc, body, timestamp, source_info, attachment)?;
        by.into_event(alloc, update)
    }
}

impl<'a, H: Handler<Item> + Drop, B: Books> PublicationBuilder<
    OnKey<'a, H, B>,
    PublicationBuilderPut,
> {
    /// Puts it.
    ///
    /// # Errors
    ///
    /// `Refused`: `SessionClosedError` behind the close, and no other. Else `NoMemory`: no event was taken.
    pub fn wait<R: Wait>(self, rt: &R, caller: &mut Caller<B>) -> Result<(), SessionError>
        ensures ok { OnOk result (Accepts B.Entries.settings H.evicts caller.old caller.new (session_put_event self.entry) false None) }
        ensures err { IfErr result (λ why. Stops B.Entries.settings H.evicts caller.old caller.new (session_put_event self.entry) false why) }
    {
        let session = self.by.session();
        let Ok(event) = self.into_event(session.alloc()) else {
            return Err(SessionError::NoMemory);
        };
        session.tell(rt, event, caller)
    }
}

impl<'a, H: Handler<Item> + Drop, B: Books> PublicationBuilder<
    OnKey<'a, H, B>,
    PublicationBuilderDelete,
> {
    /// Deletes the key's value.
    ///
    /// # Errors
    ///
    /// `Refused`: `SessionClosedError` behind the close, and no other. Else `NoMemory`: no event was taken.
    pub fn wait<R: Wait>(self, rt: &R, caller: &mut Caller<B>) -> Result<(), SessionError>
        ensures ok { OnOk result (Accepts B.Entries.settings H.evicts caller.old caller.new (session_delete_event self.entry) false None) }
        ensures err { IfErr result (λ why. Stops B.Entries.settings H.evicts caller.old caller.new (session_delete_event self.entry) false why) }
    {
        let session = self.by.session();
        let Ok(event) = self.into_event(session.alloc()) else {
            return Err(SessionError::NoMemory);
        };
        session.tell(rt, event, caller)
    }
}
