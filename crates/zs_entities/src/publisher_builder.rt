//! Publishers in the making.
ghost use Rattle.std.specs.Prelude.{◌≡◌, Some, true, false, IfOk, IfErr};
ghost use Rattle.zs_sample.specs.Quality.{number_of};
ghost use Rattle.zs_held.specs.Numbers.{numbered_at};
ghost use Rattle.zs_cell.specs.Steps.{Accepts, Stops};
ghost use Rattle.zs_calls.specs.Publications.{is_reliable, publication_qos};
ghost use Rattle.zs_entities.specs.Builders.{new_publisher, publisher_event};

use crate::publisher::Publisher;
use std::alloc::AllocError;
use std::marker::Model;
use std::sync::Wait;
use zs_calls::key_arg;
use zs_cell::{Books, Caller, Item, Session, SessionError};
use zs_declaring::{declare_alone, publisher};
use zs_events::{Event, PublicationQuality, PublisherSettings, Shared};
use zs_handlers::Handler;
use zs_keys::KeyExpr;
use zs_sample::{
    CongestionControl, Encoding, Locality, Priority, QoS, QoSBuilder, QoSType, Reliability,
};

/// A publisher in the making. Contracts see its fields.
#[must_use = "nothing is declared before `wait`"]
#[derive(Drop)]
pub struct PublisherBuilder<'a, H, B: Books> {
    session: &'a Session<H, B>,
    key: KeyExpr<'a>,
    destination: Locality,
    encoding: Encoding,
    qos: QoSBuilder,
    reliability: Reliability,
}

impl<'a, H, B: Books> Model for PublisherBuilder<'a, H, B> {
    ghost use Rattle.zs_entities.specs.Builders.{PublisherMade};

    ghost Value = { PublisherMade };

    ghost view = { λ b. record { session = b.session.now; key = b.key; destination = b.destination; encoding = b.encoding; qos = b.qos; reliability = b.reliability } };
}

// Whether what is published is sent again where it was lost on the way.
fn is_reliable(reliability: Reliability) -> bool
    ensures { result ≡ is_reliable reliability }
{
    match reliability {
        Reliability::BestEffort => false,
        Reliability::Reliable => true,
    }
}

// The quality of service of what is published, where nothing else is said.
fn publication_qos() -> QoSBuilder
    ensures { result ≡ publication_qos }
{
    let qos = QoSType {
        priority: 5,
        congestion: CongestionControl::Drop,
        express: false,
    };
    QoSBuilder::from(QoS::from(qos))
}

impl<'a, H, B: Books> PublisherBuilder<'a, H, B> {
    // A publisher of which nothing else is said.
    pub(crate) fn of(session: &'a Session<H, B>, key: KeyExpr<'a>) -> PublisherBuilder<'a, H, B>
        ensures { result ≡ new_publisher session.now key.entry }
    {
        PublisherBuilder {
            session,
            key,
            destination: Locality::Any,
            encoding: Encoding::ZENOH_BYTES,
            qos: publication_qos(),
            reliability: Reliability::Reliable,
        }
    }

    /// Whose subscribers are handed what it publishes: by itself all are.
    pub fn allowed_destination(mut self, destination: Locality) -> PublisherBuilder<'a, H, B>
        ensures { result ≡ record self.entry { destination = destination } }
    {
        self.destination = destination;
        self
    }

    /// With that encoding of its puts that name none: by itself the default one.
    pub fn encoding(mut self, encoding: Encoding) -> PublisherBuilder<'a, H, B>
        ensures { result ≡ record self.entry { encoding = encoding } }
    {
        self.encoding = encoding;
        self
    }

    /// What is done with what it publishes where a queue on the way is full: by itself it is dropped.
    pub fn congestion_control(
        mut self,
        congestion_control: CongestionControl,
    ) -> PublisherBuilder<'a, H, B>
        ensures { result ≡ record self.entry { qos = record self.entry.qos { congestion = congestion_control } } }
    {
        let qos = self.qos;
        self.qos = qos.congestion_control(congestion_control);
        self
    }

    /// How urgent it is: by itself it is `Data`.
    pub fn priority(mut self, priority: Priority) -> PublisherBuilder<'a, H, B>
        ensures { result ≡ record self.entry { qos = record self.entry.qos { priority = number_of priority } } }
    {
        let qos = self.qos;
        self.qos = qos.priority(priority);
        self
    }

    /// Whether it is sent at once, and not batched: by itself it is batched.
    pub fn express(mut self, express: bool) -> PublisherBuilder<'a, H, B>
        ensures { result ≡ record self.entry { qos = record self.entry.qos { express = express } } }
    {
        let qos = self.qos;
        self.qos = qos.express(express);
        self
    }

    /// Whether it is sent again where it was lost on the way: by itself it is.
    pub fn reliability(mut self, reliability: Reliability) -> PublisherBuilder<'a, H, B>
        ensures { result ≡ record self.entry { reliability = reliability } }
    {
        self.reliability = reliability;
        self
    }
}

impl<'a, H: Drop, B: Books> PublisherBuilder<'a, H, B> {
    // The event that declares it.
    fn event(&self) -> Result<Event, AllocError>
        ensures event { IfOk result (λ event. event ≡ publisher_event self.now) }
        ensures number { IfOk result (λ event. numbered_at event ≡ true) }
    {
        let session = self.session;
        let alloc = session.alloc();
        let key = key_arg(alloc, session.tag(), &self.key)?;
        let encoding = self.encoding.to_text(alloc)?;
        let settings = PublisherSettings {
            destination: self.destination,
            encoding,
            quality: PublicationQuality {
                qos: QoSType::from(QoS::from(self.qos)),
                reliable: is_reliable(self.reliability),
            },
        };
        let settings = Shared::new(alloc, settings)?;
        Ok(publisher(key, settings))
    }

    // The publisher, once it was declared under that number.
    fn into_publisher(self, id: u32) -> Publisher<'a, H, B>
        ensures { result ≡ record { session = self.entry.session; id = id; key = self.entry.key; encoding = self.entry.encoding; qos = self.entry.qos; reliability = self.entry.reliability } }
    {
        let PublisherBuilder {
            session,
            key,
            destination: _,
            encoding,
            qos,
            reliability,
        } = self;
        Publisher::of(session, id, key, encoding, QoS::from(qos), reliability)
    }
}

impl<'a, H: Handler<Item> + Drop, B: Books> PublisherBuilder<'a, H, B> {
    /// Declares it.
    ///
    /// # Errors
    ///
    /// `Refused`: `SessionClosedError` behind the close, `IdsExhausted` where no number of an entity is left. Else
    /// `NoMemory`: no event was taken.
    pub fn wait<R: Wait>(
        self,
        rt: &R,
        caller: &mut Caller<B>,
    ) -> Result<Publisher<'a, H, B>, SessionError>
        ensures ok { IfOk result (λ made. Accepts B.Entries.settings H.evicts caller.old caller.new (publisher_event self.entry) false (Some made.id)) }
        ensures made { IfOk result (λ made. made ≡ record { session = self.entry.session; id = made.id; key = self.entry.key; encoding = self.entry.encoding; qos = self.entry.qos; reliability = self.entry.reliability }) }
        ensures err { IfErr result (λ why. Stops B.Entries.settings H.evicts caller.old caller.new (publisher_event self.entry) false why) }
    {
        let session = self.session;
        let Ok(event) = self.event() else {
            return Err(SessionError::NoMemory);
        };
        match declare_alone(session, rt, event, caller) {
            Ok(id) => Ok(self.into_publisher(id)),
            Err(why) => Err(why),
        }
    }
}
