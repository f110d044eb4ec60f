//! Publishers.
ghost use Rattle.std.specs.Prelude.{◌≡◌, IfOk, IfErr, OnOk, None, false, is_some};
ghost use Rattle.zs_sample.specs.Quality.{priority_of};
ghost use Rattle.zs_events.specs.declared.entity_kind.EntityKind.TheVariants.{Pub as publisher_kind};
ghost use Rattle.zs_events.specs.declared.entity_kind.ParentKind.TheVariants.{Pub as publisher_parent};
ghost use Rattle.zs_events.specs.declared.event.Event.TheVariants.{Status, Undeclare};
ghost use Rattle.zs_cell.specs.Steps.{Accepts, AcceptsFor, Stops};
ghost use Rattle.zs_calls.specs.Publications.{published, put_of, Deletes};
ghost use Rattle.zs_declaring.specs.Statuses.{Tells};
ghost use Rattle.zs_entities.specs.Builders.{new_listener};
ghost use Rattle.zs_entities.specs.Entities.{global_id, sent_event};
ghost use Rattle.zs_declaring.specs.Waits.{waited_key};

use crate::matching_listener_builder::MatchingListenerBuilder;
use crate::undeclaration::Undeclaration;
use std::marker::Model;
use std::sync::Wait;
use zs_calls::{PublisherDeleteBuilder, PublisherPutBuilder, Unspent};
use zs_cell::{Books, Caller, Drained, Item, Session, SessionError};
use zs_declaring::{status, undeclare};
use zs_events::{EntityKind, ParentKind};
use zs_handlers::Handler;
use zs_keys::KeyExpr;
use zs_sample::{
    CongestionControl, Encoding, MatchingStatus, Priority, QoS, Reliability, Sample, SampleFields,
    SampleKind, ZBytes,
};
use zs_wire::EntityGlobalId;

/// What a session holds for whoever publishes on a key again and again. It is spent: undeclared or abandoned. Contracts see its
/// session, number and key, and how it publishes.
#[must_use = "a publisher is undeclared or abandoned"]
pub struct Publisher<'a, H, B: Books> {
    session: &'a Session<H, B>,
    id: u32,
    key: KeyExpr<'a>,
    encoding: Encoding,
    qos: QoS,
    reliability: Reliability,
}

impl<'a, H, B: Books> Model for Publisher<'a, H, B> {
    ghost use Rattle.zs_entities.specs.Entities.{PublisherSeen};

    ghost Value = { PublisherSeen };

    ghost view = { λ p. record { session = p.session.now; id = p.id; key = p.key; encoding = p.encoding; qos = p.qos; reliability = p.reliability } };
}

impl<'a, H, B: Books> Publisher<'a, H, B> {
    // The publisher that the session declared under that number.
    pub(crate) fn of(
        session: &'a Session<H, B>,
        id: u32,
        key: KeyExpr<'a>,
        encoding: Encoding,
        qos: QoS,
        reliability: Reliability,
    ) -> Publisher<'a, H, B>
        ensures { result ≡ record { session = session.now; id = id; key = key.entry; encoding = encoding; qos = qos; reliability = reliability } }
    {
        Publisher {
            session,
            id,
            key,
            encoding,
            qos,
            reliability,
        }
    }

    /// The key on which it publishes.
    pub fn key_expr(&self) -> &KeyExpr<'a>
        ensures { result.now ≡ self.now.key }
    {
        &self.key
    }

    /// What its puts are that name no encoding.
    pub fn encoding(&self) -> &Encoding
        ensures { result.now ≡ self.now.encoding }
    {
        &self.encoding
    }

    /// What is done with what it publishes where a queue on the way is full.
    pub fn congestion_control(&self) -> CongestionControl
        ensures { result ≡ self.now.qos.congestion }
    {
        self.qos.congestion_control()
    }

    /// How urgent what it publishes is.
    pub fn priority(&self) -> Priority
        ensures { result ≡ priority_of self.now.qos.priority }
    {
        self.qos.priority()
    }

    /// Whether what it publishes is sent again where it was lost on the way.
    pub fn reliability(&self) -> Reliability
        ensures { result ≡ self.now.reliability }
    {
        self.reliability
    }

    /// A put on its key.
    pub fn put(&self, payload: ZBytes) -> PublisherPutBuilder<'a, H, B>
        ensures { result ≡ published (record { session = self.now.session; id = self.now.id }) (put_of payload) }
    {
        PublisherPutBuilder::of(self.session, self.id, payload)
    }

    /// A delete of its key's value.
    pub fn delete(&self) -> PublisherDeleteBuilder<'a, H, B>
        ensures { result ≡ published (record { session = self.now.session; id = self.now.id }) Deletes }
    {
        PublisherDeleteBuilder::of(self.session, self.id)
    }

    /// A listener, which is told whether anyone is handed what it publishes.
    pub fn matching_listener(&self) -> MatchingListenerBuilder<'a, H, B>
        ensures { result ≡ new_listener self.now.session publisher_parent self.now.id }
    {
        MatchingListenerBuilder::of(self.session, ParentKind::Pub, self.id)
    }

    /// Ends it, once that is waited for.
    pub fn undeclare(self) -> Undeclaration<Publisher<'a, H, B>>
        ensures { result ≡ record { value = self.entry; waits = false } }
    {
        Undeclaration::of(self)
    }

    /// Lets go of it: it lives on until the session is closed.
    pub fn abandon(self) {
        let Publisher {
            session: _,
            id: _,
            key,
            encoding,
            qos: _,
            reliability: _,
        } = self;
        drop(key);
        drop(encoding);
    }
}

impl<'a, H: Drop, B: Books> Publisher<'a, H, B> {
    /// It among the entities of the network.
    pub fn id(&self) -> EntityGlobalId
        ensures { result ≡ global_id self.now.session self.now.id }
    {
        EntityGlobalId {
            zid: self.session.zid(),
            eid: self.id,
        }
    }
}

impl<'a, H: Handler<Item> + Drop, B: Books> Publisher<'a, H, B> {
    /// Publishes what a sample puts, or that it deletes, with the sample's encoding and attachment, and as the publisher publishes.
    /// The sample's moment and source are dropped.
    ///
    /// # Errors
    ///
    /// `Refused`: `SessionClosedError` behind the close, `NotFound` where the publisher was ended by its number. Else
    /// `NoMemory`: no event was taken.
    pub fn send<R: Wait>(
        &self,
        rt: &R,
        sample: Sample,
        caller: &mut Caller<B>,
    ) -> Result<(), SessionError>
        ensures ok { OnOk result (Accepts B.Entries.settings H.evicts caller.old caller.new (sent_event self.now sample) false None) }
        ensures err { IfErr result (λ why. Stops B.Entries.settings H.evicts caller.old caller.new (sent_event self.now sample) false why) }
    {
        let SampleFields {
            key_expr,
            payload,
            kind,
            encoding,
            timestamp: _,
            express: _,
            priority: _,
            congestion_control: _,
            reliability: _,
            source_info: _,
            attachment,
        } = sample.into_fields();
        drop(key_expr);
        match kind {
            SampleKind::Put => {
                let put = self.put(payload).encoding(encoding);
                put.attachment(attachment).wait(rt, caller)
            }
            SampleKind::Delete => {
                drop(payload);
                drop(encoding);
                self.delete().attachment(attachment).wait(rt, caller)
            }
        }
    }

    /// Whether anyone is handed what it publishes.
    ///
    /// # Errors
    ///
    /// `Refused`: `SessionClosedError` behind the close, `NotFound` where the publisher was ended by its number. Else
    /// `NoMemory`: no event was taken.
    pub fn matching_status<R: Wait>(
        &self,
        rt: &R,
        caller: &mut Caller<B>,
    ) -> Result<MatchingStatus, SessionError>
        ensures ok { IfOk result (λ matching. Tells B.Entries.settings H.evicts caller.old caller.new publisher_parent self.now.id matching) }
        ensures err { IfErr result (λ why. Stops B.Entries.settings H.evicts caller.old caller.new (Status publisher_parent self.now.id) false why) }
    {
        status(self.session, rt, ParentKind::Pub, self.id, caller)
    }

    // Ends it: where the session takes the event and accepts it, the publisher is gone.
    fn end<R: Wait>(
        &self,
        rt: &R,
        waits: bool,
        caller: &mut Caller<B>,
    ) -> Result<Option<Drained>, SessionError>
        ensures ok { IfOk result (λ drained. AcceptsFor B.Entries.settings H.evicts caller.old caller.new (Undeclare publisher_kind self.now.id) false None (waited_key waits (Undeclare publisher_kind self.now.id)) (is_some drained)) }
        ensures at_once { waits ≡ false → IfOk result (λ drained. drained ≡ None) }
        ensures err { IfErr result (λ why. Stops B.Entries.settings H.evicts caller.old caller.new (Undeclare publisher_kind self.now.id) false why) }
    {
        undeclare(self.session, rt, EntityKind::Pub, self.id, waits, caller)
    }
}

impl<'a, H: Handler<Item> + Drop, B: Books> Undeclaration<Publisher<'a, H, B>> {
    /// Ends the publisher. It answers that the callbacks of its listeners have ended, where they were waited for and the session still
    /// held their gate.
    ///
    /// # Errors
    ///
    /// `Refused`: `NotFound` where it was ended by its number already, unless the session is closed. Else `NoMemory`:
    /// no event was taken. The publisher comes back.
    pub fn wait<R: Wait>(
        self,
        rt: &R,
        caller: &mut Caller<B>,
    ) -> Result<Option<Drained>, Unspent<Publisher<'a, H, B>>>
        ensures ok { IfOk result (λ drained. AcceptsFor B.Entries.settings H.evicts caller.old caller.new (Undeclare publisher_kind self.entry.value.id) false None (waited_key self.entry.waits (Undeclare publisher_kind self.entry.value.id)) (is_some drained)) }
        ensures at_once { self.entry.waits ≡ false → IfOk result (λ drained. drained ≡ None) }
        ensures err { IfErr result (λ back. Stops B.Entries.settings H.evicts caller.old caller.new (Undeclare publisher_kind self.entry.value.id) false back.why) }
        ensures back { IfErr result (λ back. back.value ≡ self.entry.value) }
    {
        let (value, waits) = self.into_parts();
        match value.end(rt, waits, caller) {
            Ok(drained) => {
                value.abandon();
                Ok(drained)
            }
            Err(why) => Err(Unspent { why, value }),
        }
    }
}
