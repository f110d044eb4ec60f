//! Replies with an error.
ghost use Rattle.std.specs.Prelude.{◌≡◌, ◌≢◌, ◌↔◌, None, Err, false, IfOk, IfErr, OnOk};
ghost use Rattle.zs_cell.specs.Steps.{Accepts, StopsOr};
ghost use Rattle.zs_cell.specs.declared.error.SessionError.{SessionError};
ghost use Rattle.zs_held.specs.Numbers.{numbered_at};
ghost use Rattle.zs_calls.specs.Replies.{replied_err, reply_err_event};

use crate::events::reply_err;
use crate::stepping::tell_own;
use std::alloc::AllocError;
use std::marker::Model;
use std::sync::Wait;
use zs_cell::{Books, Caller, Item, Session, SessionError};
use zs_events::{Event, Shared};
use zs_handlers::Handler;
use zs_sample::{Encoding, ZBytes};
use zs_turns::Query;
use zs_wire::Value;

/// A reply with an error in the making. Contracts see to which query it is, and the error.
#[must_use = "nothing is answered before `wait`"]
#[derive(Drop)]
pub struct ReplyErrBuilder<'a, H, B: Books> {
    query: &'a Query,
    session: &'a Session<H, B>,
    payload: ZBytes,
    encoding: Encoding,
}

impl<'a, H, B: Books> Model for ReplyErrBuilder<'a, H, B> {
    ghost use Rattle.zs_calls.specs.Replies.{ReplyErrSeen};

    ghost Value = { ReplyErrSeen };

    ghost view = { λ r. record { query = r.query.now; session = r.session.now; payload = r.payload; encoding = r.encoding } };
}

impl<'a, H, B: Books> ReplyErrBuilder<'a, H, B> {
    // An error of which nothing else is said.
    pub(crate) fn of(
        query: &'a Query,
        session: &'a Session<H, B>,
        payload: ZBytes,
    ) -> ReplyErrBuilder<'a, H, B>
        ensures { result ≡ replied_err query.now session.now payload }
    {
        ReplyErrBuilder {
            query,
            session,
            payload,
            encoding: Encoding::ZENOH_BYTES,
        }
    }

    /// With that encoding in place of the default one.
    pub fn encoding(mut self, encoding: Encoding) -> ReplyErrBuilder<'a, H, B>
        ensures { result ≡ record self.entry { encoding = encoding } }
    {
        self.encoding = encoding;
        self
    }
}

impl<'a, H: Drop, B: Books> ReplyErrBuilder<'a, H, B> {
    // The event that it is.
    fn into_event(self) -> Result<Event, AllocError>
        ensures event { IfOk result (λ event. event ≡ reply_err_event self.entry) }
        ensures number { IfOk result (λ event. numbered_at event ≡ false) }
    {
        let ReplyErrBuilder {
            query,
            session,
            payload,
            encoding,
        } = self;
        let alloc = session.alloc();
        let encoding = encoding.to_text(alloc)?;
        let error = Shared::new(alloc, Value { payload, encoding })?;
        Ok(reply_err(query.value(), error))
    }
}

impl<'a, H: Handler<Item> + Drop, B: Books> ReplyErrBuilder<'a, H, B> {
    /// Answers the query with the error.
    ///
    /// # Errors
    ///
    /// `OtherSession` where the query is of another session: no event was taken. `Refused`: `NotFound` where nothing is
    /// left to give back under the query's number, unless the session is closed. Else `NoMemory`: no event was taken.
    pub fn wait<R: Wait>(self, rt: &R, caller: &mut Caller<B>) -> Result<(), SessionError>
        ensures ok { OnOk result (Accepts B.Entries.settings H.evicts caller.old caller.new (reply_err_event self.entry) false None) }
        ensures err { IfErr result (λ why. StopsOr B.Entries.settings H.evicts caller.old caller.new (reply_err_event self.entry) false why) }
        ensures other { (result ≡ Err SessionError.OtherSession) ↔ (self.entry.query.tag ≢ self.entry.session.tag) }
    {
        let session = self.session;
        let query = self.query;
        if query.tag() != session.tag() {
            return Err(SessionError::OtherSession);
        }
        let Ok(event) = self.into_event() else {
            return Err(SessionError::NoMemory);
        };
        tell_own(session, rt, event, caller)
    }
}
