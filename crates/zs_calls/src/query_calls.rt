//! The calls of a query: its answers, one more of it, and its end.
ghost use Rattle.std.specs.Prelude.{◌≡◌, ◌≢◌, ◌↔◌, None, Some, Err, false, IfOk, IfErr, OnOk};
ghost use Rattle.zs_events.specs.declared.event.Event.TheVariants.{Share, Finish};
ghost use Rattle.zs_cell.specs.Steps.{Accepts, StopsOr};
ghost use Rattle.zs_cell.specs.declared.error.SessionError.{SessionError};
ghost use Rattle.zs_calls.specs.Publications.{put_of, Deletes};
ghost use Rattle.zs_calls.specs.Replies.{replied, replied_err};

use crate::events::{finish, share};
use crate::publication::{PublicationBuilderDelete, PublicationBuilderPut};
use crate::reply::{ReplyBuilder, ReplyBuilderDelete, ReplyBuilderPut};
use crate::reply_err::ReplyErrBuilder;
use crate::reply_sample::ReplySample;
use crate::stepping::{ask_own, tell_own};
use crate::unspent::Unspent;
use std::sync::Wait;
use zs_cell::{Books, Caller, Item, Session, SessionError};
use zs_handlers::Handler;
use zs_keys::KeyExpr;
use zs_sample::{Sample, ZBytes};
use zs_turns::Query;

/// How a query is answered, shared and given back. It holds no session, so each call is handed the one that it is of.
pub trait QueryCalls {
    /// An answer: what a key's value is.
    fn reply<'a, H, B: Books>(
        &'a self,
        session: &'a Session<H, B>,
        key: KeyExpr<'a>,
        payload: ZBytes,
    ) -> ReplyBuilder<'a, H, B, ReplyBuilderPut>;

    /// An answer: that a key's value is deleted.
    fn reply_del<'a, H, B: Books>(
        &'a self,
        session: &'a Session<H, B>,
        key: KeyExpr<'a>,
    ) -> ReplyBuilder<'a, H, B, ReplyBuilderDelete>;

    /// An answer: an error.
    fn reply_err<'a, H, B: Books>(
        &'a self,
        session: &'a Session<H, B>,
        payload: ZBytes,
    ) -> ReplyErrBuilder<'a, H, B>;
}

/// How a query is answered by a sample that is there already.
pub trait QuerySamples {
    /// An answer: a sample, with all that it says itself.
    fn reply_sample<'a, H, B: Books>(
        &'a self,
        session: &'a Session<H, B>,
        sample: Sample,
    ) -> ReplySample<'a, H, B>;
}

/// How a query is shared and given back.
pub trait QueryValues {
    /// One more of the query, which is to be given back like the first.
    ///
    /// # Errors
    ///
    /// `OtherSession` where the query is of another session: no event was taken. `Refused`: `SessionClosedError` behind
    /// the close, `NotFound` where nothing is left to give back under the query's number, `IdsExhausted` where no
    /// number of a query is left. Else `NoMemory`: no event was taken.
    fn share<H: Handler<Item> + Drop, B: Books, R: Wait>(
        &self,
        rt: &R,
        session: &Session<H, B>,
        caller: &mut Caller<B>,
    ) -> Result<Query, SessionError>;

    /// Gives the query back: it is answered no more from here.
    ///
    /// # Errors
    ///
    /// `OtherSession` where the query is of another session: no event was taken. `Refused`: `NotFound` where nothing is
    /// left to give back under the query's number, unless the session is closed. Else `NoMemory`: no event was taken.
    /// The query comes back.
    fn finish<H: Handler<Item> + Drop, B: Books, R: Wait>(
        self,
        rt: &R,
        session: &Session<H, B>,
        caller: &mut Caller<B>,
    ) -> Result<(), Unspent<Query>>;
}

impl QueryCalls for Query {
    /// The answer in the making: nothing is answered before its `wait`, which also tells a session that isn't its own.
    fn reply<'a, H, B: Books>(
        &'a self,
        session: &'a Session<H, B>,
        key: KeyExpr<'a>,
        payload: ZBytes,
    ) -> ReplyBuilder<'a, H, B, ReplyBuilderPut>
        ensures { result ≡ replied self.now session.now key.entry (put_of payload) }
    {
        ReplyBuilder::of(self, session, key, PublicationBuilderPut::of(payload))
    }

    /// The answer in the making, which has no payload: nothing is answered before its `wait`.
    fn reply_del<'a, H, B: Books>(
        &'a self,
        session: &'a Session<H, B>,
        key: KeyExpr<'a>,
    ) -> ReplyBuilder<'a, H, B, ReplyBuilderDelete>
        ensures { result ≡ replied self.now session.now key.entry Deletes }
    {
        ReplyBuilder::of(self, session, key, PublicationBuilderDelete)
    }

    /// The error in the making, with a payload that says what is wrong: nothing is answered before its `wait`.
    fn reply_err<'a, H, B: Books>(
        &'a self,
        session: &'a Session<H, B>,
        payload: ZBytes,
    ) -> ReplyErrBuilder<'a, H, B>
        ensures { result ≡ replied_err self.now session.now payload }
    {
        ReplyErrBuilder::of(self, session, payload)
    }
}

impl QuerySamples for Query {
    /// The sample's answer in the making: it holds the sample whole, and nothing is answered before its `wait`.
    fn reply_sample<'a, H, B: Books>(
        &'a self,
        session: &'a Session<H, B>,
        sample: Sample,
    ) -> ReplySample<'a, H, B>
        ensures { result ≡ record { query = self.now; session = session.now; sample = sample } }
    {
        ReplySample::of(self, session, sample)
    }
}

impl QueryValues for Query {
    /// Copies the query before the session is stepped, so that a number is drawn only for a query that is there.
    fn share<H: Handler<Item> + Drop, B: Books, R: Wait>(
        &self,
        rt: &R,
        session: &Session<H, B>,
        caller: &mut Caller<B>,
    ) -> Result<Query, SessionError>
        ensures ok { IfOk result (λ query. Accepts B.Entries.settings H.evicts caller.old caller.new (Share self.now.value) false (Some query.value)) }
        ensures same { IfOk result (λ query. query ≡ record self.now { value = query.value }) }
        ensures err { IfErr result (λ why. StopsOr B.Entries.settings H.evicts caller.old caller.new (Share self.now.value) false why) }
        ensures other { (result ≡ Err SessionError.OtherSession) ↔ (self.now.tag ≢ session.now.tag) }
    {
        if self.tag() != session.tag() {
            return Err(SessionError::OtherSession);
        }
        let Ok(query) = self.try_clone(session.alloc()) else {
            return Err(SessionError::NoMemory);
        };
        match ask_own(session, rt, share(self.value()), caller) {
            Ok(value) => Ok(query.with_value(value)),
            Err(why) => {
                drop(query);
                Err(why)
            }
        }
    }

    /// Lets go of the query only once its end was accepted; otherwise it comes back with the reason.
    fn finish<H: Handler<Item> + Drop, B: Books, R: Wait>(
        self,
        rt: &R,
        session: &Session<H, B>,
        caller: &mut Caller<B>,
    ) -> Result<(), Unspent<Query>>
        ensures ok { OnOk result (Accepts B.Entries.settings H.evicts caller.old caller.new (Finish self.value) false None) }
        ensures own { OnOk result (self.tag ≡ session.now.tag) }
        ensures err { IfErr result (λ back. StopsOr B.Entries.settings H.evicts caller.old caller.new (Finish self.value) false back.why) }
        ensures back { IfErr result (λ back. back.value ≡ self) }
        ensures other { IfErr result (λ back. (back.why ≡ SessionError.OtherSession) ↔ (self.tag ≢ session.now.tag)) }
    {
        if self.tag() != session.tag() {
            return Err(Unspent {
                why: SessionError::OtherSession,
                value: self,
            });
        }
        match tell_own(session, rt, finish(self.value()), caller) {
            Ok(()) => {
                drop(self);
                Ok(())
            }
            Err(why) => Err(Unspent { why, value: self }),
        }
    }
}
