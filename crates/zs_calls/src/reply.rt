//! Replies to a query: what a key's value is, or that it is deleted.
ghost use Rattle.std.specs.Prelude.{◌≡◌, ◌≢◌, ◌↔◌, None, Some, Err, false, IfOk, IfErr, OnOk};
ghost use Rattle.zs_cell.specs.Steps.{Accepts, StopsOr};
ghost use Rattle.zs_cell.specs.declared.error.SessionError.{SessionError};
ghost use Rattle.zs_held.specs.Numbers.{numbered_at};
ghost use Rattle.zs_calls.specs.Replies.{replied, answer_event, reply_put_event, reply_delete_event};

use crate::events::reply;
use crate::publication::{PublicationBuilderDelete, PublicationBuilderPut};
use crate::stepping::tell_own;
use std::alloc::{AllocError, Global};
use std::marker::Model;
use std::sync::Wait;
use zs_cell::{Books, Caller, Item, Session, SessionError, key_arg};
use zs_events::{Event, PushBody, ReplyQuality, Shared, Update};
use zs_handlers::Handler;
use zs_keys::KeyExpr;
use zs_sample::{CongestionControl, Encoding, Priority, SourceInfo, Timestamp, ZBytes};
use zs_turns::Query;

/// What a reply puts.
pub type ReplyBuilderPut = PublicationBuilderPut;

/// That a reply deletes.
pub type ReplyBuilderDelete = PublicationBuilderDelete;

/// A reply in the making. Contracts see to which query and on which key it is, and what is said of it.
#[must_use = "nothing is answered before `wait`"]
#[derive(Drop)]
pub struct ReplyBuilder<'a, H, B: Books, T> {
    query: &'a Query,
    session: &'a Session<H, B>,
    key: KeyExpr<'a>,
    kind: T,
    timestamp: Option<Timestamp>,
    express: Option<bool>,
    source_info: Option<SourceInfo>,
    attachment: Option<ZBytes>,
}

impl<'a, H, B: Books, T> Model for ReplyBuilder<'a, H, B, T> {
    ghost use Rattle.zs_calls.specs.Replies.{ReplySeen};

    ghost Value = { ReplySeen T };

    ghost view = { λ r. record { query = r.query.now; session = r.session.now; key = r.key; kind = r.kind; timestamp = r.timestamp; express = r.express; source_info = r.source_info; attachment = r.attachment } };
}

impl<'a, H, B: Books, T> ReplyBuilder<'a, H, B, T> {
    // A reply of which nothing else is said.
    pub(crate) fn of(
        query: &'a Query,
        session: &'a Session<H, B>,
        key: KeyExpr<'a>,
        kind: T,
    ) -> ReplyBuilder<'a, H, B, T>
        ensures { result ≡ replied query.now session.now key.entry kind }
    {
        ReplyBuilder {
            query,
            session,
            key,
            kind,
            timestamp: None,
            express: None,
            source_info: None,
            attachment: None,
        }
    }

    /// With the moment at which it was made, or none.
    pub fn timestamp(mut self, timestamp: Option<Timestamp>) -> ReplyBuilder<'a, H, B, T>
        ensures { result ≡ record self.entry { timestamp = timestamp } }
    {
        self.timestamp = timestamp;
        self
    }

    /// Whether it is sent at once, and not batched: by itself as its query was.
    pub fn express(mut self, express: bool) -> ReplyBuilder<'a, H, B, T>
        ensures { result ≡ record self.entry { express = Some express } }
    {
        self.express = Some(express);
        self
    }

    /// With who made it, or without.
    pub fn source_info(mut self, source_info: Option<SourceInfo>) -> ReplyBuilder<'a, H, B, T>
        ensures { result ≡ record self.entry { source_info = source_info } }
    {
        self.source_info = source_info;
        self
    }

    /// With bytes of the application's own beside the payload, or none.
    pub fn attachment(mut self, attachment: Option<ZBytes>) -> ReplyBuilder<'a, H, B, T>
        ensures { result ≡ record self.entry { attachment = attachment } }
    {
        self.attachment = attachment;
        self
    }

    /// It changes nothing: a reply is as its query was.
    pub fn congestion_control(
        self,
        _congestion_control: CongestionControl,
    ) -> ReplyBuilder<'a, H, B, T>
        ensures { result ≡ self.entry }
    {
        self
    }

    /// It changes nothing: a reply is as urgent as its query.
    pub fn priority(self, _priority: Priority) -> ReplyBuilder<'a, H, B, T>
        ensures { result ≡ self.entry }
    {
        self
    }
}

impl<'a, H, B: Books> ReplyBuilder<'a, H, B, ReplyBuilderPut> {
    /// With that encoding in place of the default one.
    pub fn encoding(mut self, encoding: Encoding) -> ReplyBuilder<'a, H, B, ReplyBuilderPut>
        ensures { result ≡ record self.entry { kind = record self.entry.kind { encoding = Some encoding } } }
    {
        self.kind = self.kind.with_encoding(encoding);
        self
    }
}

// The event by which a query is answered that on a key.
fn event_of(
    alloc: Global,
    tag: u64,
    query: &Query,
    key: &KeyExpr<'_>,
    update: Update,
    express: Option<bool>,
) -> Result<Event, AllocError>
    ensures event { IfOk result (λ event. event ≡ answer_event tag query.now key.now update express) }
    ensures number { IfOk result (λ event. numbered_at event ≡ false) }
{
    let key = key_arg(alloc, tag, key)?;
    let update = Shared::new(alloc, update)?;
    let quality = ReplyQuality {
        priority: None,
        congestion: None,
        express,
    };
    Ok(reply(query.value(), key, update, quality))
}

impl<'a, H: Drop, B: Books> ReplyBuilder<'a, H, B, ReplyBuilderPut> {
    // The event that it is.
    fn into_event(self) -> Result<Event, AllocError>
        ensures event { IfOk result (λ event. event ≡ reply_put_event self.entry) }
        ensures number { IfOk result (λ event. numbered_at event ≡ false) }
    {
        let ReplyBuilder {
            query,
            session,
            key,
            kind,
            timestamp,
            express,
            source_info,
            attachment,
        } = self;
        let alloc = session.alloc();
        let body = kind.into_body(alloc)?;
        let update = Update {
            body,
            timestamp,
            source: source_info,
            attachment,
        };
        event_of(alloc, session.tag(), query, &key, update, express)
    }
}

impl<'a, H: Drop, B: Books> ReplyBuilder<'a, H, B, ReplyBuilderDelete> {
    // The event that it is.
    fn into_event(self) -> Result<Event, AllocError>
        ensures event { IfOk result (λ event. event ≡ reply_delete_event self.entry) }
        ensures number { IfOk result (λ event. numbered_at event ≡ false) }
    {
        let ReplyBuilder {
            query,
            session,
            key,
            kind,
            timestamp,
            express,
            source_info,
            attachment,
        } = self;
        drop(kind);
        let update = Update {
            body: PushBody::Delete,
            timestamp,
            source: source_info,
            attachment,
        };
        event_of(session.alloc(), session.tag(), query, &key, update, express)
    }
}

impl<'a, H: Handler<Item> + Drop, B: Books> ReplyBuilder<'a, H, B, ReplyBuilderPut> {
    /// Answers the query with that value of the key.
    ///
    /// # Errors
    ///
    /// `OtherSession` where the query is of another session: no event was taken. `Refused`, unless the session is
    /// closed: `NotFound` where nothing is left to give back under the query's number, `ReplyDisjoint` where the key
    /// doesn't meet the query's and the query doesn't take replies on any key. Else `NoMemory`: no event was taken.
    pub fn wait<R: Wait>(self, rt: &R, caller: &mut Caller<B>) -> Result<(), SessionError>
        ensures ok { OnOk result (Accepts B.Entries.settings H.evicts caller.old caller.new (reply_put_event self.entry) false None) }
        ensures err { IfErr result (λ why. StopsOr B.Entries.settings H.evicts caller.old caller.new (reply_put_event self.entry) false why) }
        ensures other { (result ≡ Err SessionError.OtherSession) ↔ (self.entry.query.tag ≢ self.entry.session.tag) }
    {
        let session = self.session;
        let query = self.query;
        if query.tag() != session.tag() {
            return Err(SessionError::OtherSession);
        }
        let Ok(event) = self.into_event() else {
            return Err(SessionError::NoMemory);
        };
        tell_own(session, rt, event, caller)
    }
}

impl<'a, H: Handler<Item> + Drop, B: Books> ReplyBuilder<'a, H, B, ReplyBuilderDelete> {
    /// Answers the query that the key's value is deleted.
    ///
    /// # Errors
    ///
    /// `OtherSession` where the query is of another session: no event was taken. `Refused`, unless the session is
    /// closed: `NotFound` where nothing is left to give back under the query's number, `ReplyDisjoint` where the key
    /// doesn't meet the query's and the query doesn't take replies on any key. Else `NoMemory`: no event was taken.
    pub fn wait<R: Wait>(self, rt: &R, caller: &mut Caller<B>) -> Result<(), SessionError>
        ensures ok { OnOk result (Accepts B.Entries.settings H.evicts caller.old caller.new (reply_delete_event self.entry) false None) }
        ensures err { IfErr result (λ why. StopsOr B.Entries.settings H.evicts caller.old caller.new (reply_delete_event self.entry) false why) }
        ensures other { (result ≡ Err SessionError.OtherSession) ↔ (self.entry.query.tag ≢ self.entry.session.tag) }
    {
        let session = self.session;
        let query = self.query;
        if query.tag() != session.tag() {
            return Err(SessionError::OtherSession);
        }
        let Ok(event) = self.into_event() else {
            return Err(SessionError::NoMemory);
        };
        tell_own(session, rt, event, caller)
    }
}
