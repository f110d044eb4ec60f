//! Samples as replies.
ghost use Rattle.std.specs.Prelude.{◌≡◌, ◌≢◌, ◌↔◌, None, Err, false, IfOk, IfErr, OnOk};
ghost use Rattle.zs_cell.specs.Steps.{Accepts, StopsOr};
ghost use Rattle.zs_cell.specs.declared.error.SessionError.{SessionError};
ghost use Rattle.zs_held.specs.Numbers.{numbered_at};
ghost use Rattle.zs_calls.specs.Replies.{sample_body, reply_sample_event};

use crate::events::reply;
use crate::stepping::tell_own;
use std::alloc::{AllocError, Global};
use std::marker::Model;
use std::sync::Wait;
use zs_cell::{Books, Caller, Item, Session, SessionError, key_arg};
use zs_events::{Event, PushBody, ReplyQuality, Shared, Update};
use zs_handlers::Handler;
use zs_sample::{Encoding, Sample, SampleFields, SampleKind, ZBytes};
use zs_turns::Query;

/// A sample that is to answer a query, with all that it says itself. Contracts see the query and the sample.
#[must_use = "nothing is answered before `wait`"]
#[derive(Drop)]
pub struct ReplySample<'a, H, B: Books> {
    query: &'a Query,
    session: &'a Session<H, B>,
    sample: Sample,
}

impl<'a, H, B: Books> Model for ReplySample<'a, H, B> {
    ghost use Rattle.zs_calls.specs.Replies.{ReplySampleSeen};

    ghost Value = { ReplySampleSeen };

    ghost view = { λ r. record { query = r.query.now; session = r.session.now; sample = r.sample } };
}

// What a sample puts, or that it deletes.
fn body_of(
    alloc: Global,
    kind: SampleKind,
    payload: ZBytes,
    encoding: &Encoding,
) -> Result<PushBody, AllocError>
    ensures { IfOk result (λ body. body ≡ sample_body kind payload encoding.now) }
{
    match kind {
        SampleKind::Put => {
            let encoding = encoding.to_text(alloc)?;
            Ok(PushBody::Put {
                payload,
                encoding: Some(encoding),
            })
        }
        SampleKind::Delete => {
            drop(payload);
            Ok(PushBody::Delete)
        }
    }
}

impl<'a, H, B: Books> ReplySample<'a, H, B> {
    /// A sample that is to answer that query. Whether the session is the query's shows at its `wait`.
    pub(crate) fn of(
        query: &'a Query,
        session: &'a Session<H, B>,
        sample: Sample,
    ) -> ReplySample<'a, H, B>
        ensures { result ≡ record { query = query.now; session = session.now; sample = sample } }
    {
        ReplySample {
            query,
            session,
            sample,
        }
    }
}

impl<'a, H: Drop, B: Books> ReplySample<'a, H, B> {
    // The event that it is.
    fn into_event(self) -> Result<Event, AllocError>
        ensures event { IfOk result (λ event. event ≡ reply_sample_event self.entry) }
        ensures number { IfOk result (λ event. numbered_at event ≡ false) }
    {
        let ReplySample {
            query,
            session,
            sample,
        } = self;
        let SampleFields {
            key_expr,
            payload,
            kind,
            encoding,
            timestamp,
            express,
            priority,
            congestion_control,
            reliability: _,
            source_info,
            attachment,
        } = sample.into_fields();
        let alloc = session.alloc();
        let key = key_arg(alloc, session.tag(), &key_expr)?;
        let body = body_of(alloc, kind, payload, &encoding)?;
        let update = Update {
            body,
            timestamp,
            source: source_info,
            attachment,
        };
        let update = Shared::new(alloc, update)?;
        let quality = ReplyQuality {
            priority: Some(priority.number()),
            congestion: Some(congestion_control),
            express: Some(express),
        };
        Ok(reply(query.value(), key, update, quality))
    }
}

impl<'a, H: Handler<Item> + Drop, B: Books> ReplySample<'a, H, B> {
    /// Answers the query with the sample.
    ///
    /// # Errors
    ///
    /// `OtherSession` where the query is of another session: no event was taken. `Refused`, unless the session is
    /// closed: `NotFound` where nothing is left to give back under the query's number, `ReplyDisjoint` where the
    /// sample's key doesn't meet the query's and the query doesn't take replies on any key. Else `NoMemory`: no event
    /// was taken.
    pub fn wait<R: Wait>(self, rt: &R, caller: &mut Caller<B>) -> Result<(), SessionError>
        ensures ok { OnOk result (Accepts B.Entries.settings H.evicts caller.old caller.new (reply_sample_event self.entry) false None) }
        ensures err { IfErr result (λ why. StopsOr B.Entries.settings H.evicts caller.old caller.new (reply_sample_event self.entry) false why) }
        ensures other { (result ≡ Err SessionError.OtherSession) ↔ (self.entry.query.tag ≢ self.entry.session.tag) }
    {
        let session = self.session;
        let query = self.query;
        if query.tag() != session.tag() {
            return Err(SessionError::OtherSession);
        }
        let Ok(event) = self.into_event() else {
            return Err(SessionError::NoMemory);
        };
        tell_own(session, rt, event, caller)
    }
}
