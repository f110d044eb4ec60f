//! A querier, whose listener is told that a queryable comes and goes, and a get that is cancelled.
use crate::alone::asking::answer_next;
use crate::alone::showing::show;
use crate::channel::channel;
use crate::trouble::Trouble;
use std::io::Print;
use std::sync::Wait;
use zs_calls::{SessionCalls, Unspent};
use zs_cell::{Books, Caller, Item, Session};
use zs_entities::{Querier, SessionEntities};
use zs_handlers::{FifoChannelHandler, FifoSender};
use zs_keys::KeyExpr;
use zs_sample::{Locality, Selector};

/// Asks by a querier, answers the query that the queryable is handed, and shows the reply.
fn ask_by<B: Books, R: Wait + Print>(
    rt: &R,
    session: &Session<FifoSender<Item>, B>,
    querier: &Querier<'_, FifoSender<Item>, B>,
    queries: &FifoChannelHandler<Item>,
    caller: &mut Caller<B>,
) -> Result<(), Trouble> {
    let (sender, replies) = channel(session.alloc())?;
    querier.get().with(sender).wait(rt, caller)?;
    answer_next(rt, session, queries, caller)?;
    show(rt, session.alloc(), &replies)
}

/// Declares a queryable for a home, asks it by a querier, and ends it.
fn offer_and_ask_by<B: Books, R: Wait + Print>(
    rt: &R,
    session: &Session<FifoSender<Item>, B>,
    querier: &Querier<'_, FifoSender<Item>, B>,
    caller: &mut Caller<B>,
) -> Result<(), Trouble> {
    let (sender, queries) = channel(session.alloc())?;
    let home = KeyExpr::new("home/**")?;
    let queryable = session.declare_queryable(home).with(sender);
    let queryable = queryable.wait(rt, caller)?;
    let shown = ask_by(rt, session, querier, &queries, caller);
    match queryable.undeclare().wait(rt, caller) {
        Ok(_) => shown,
        Err(Unspent { why, value }) => {
            value.abandon();
            Err(Trouble::Session(why))
        }
    }
}

/// Lets a queryable come and go, and shows what a listener to the querier is told. The listener ends with the querier.
fn listen<B: Books, R: Wait + Print>(
    rt: &R,
    session: &Session<FifoSender<Item>, B>,
    querier: &Querier<'_, FifoSender<Item>, B>,
    caller: &mut Caller<B>,
) -> Result<(), Trouble> {
    let (sender, changes) = channel(session.alloc())?;
    let listener = querier.matching_listener().with(sender);
    listener.background().wait(rt, caller)?;
    offer_and_ask_by(rt, session, querier, caller)?;
    show(rt, session.alloc(), &changes)?;
    show(rt, session.alloc(), &changes)
}

/// Declares a querier for the queryables of this session, and ends it once it has asked.
pub(crate) fn declare_and_query<B: Books, R: Wait + Print>(
    rt: &R,
    session: &Session<FifoSender<Item>, B>,
    caller: &mut Caller<B>,
) -> Result<(), Trouble> {
    let key = KeyExpr::new("home/kitchen/temp")?;
    let querier = session.declare_querier(key);
    let querier = querier.allowed_destination(Locality::SessionLocal);
    let querier = querier.wait(rt, caller)?;
    let shown = listen(rt, session, &querier, caller);
    match querier.undeclare().wait(rt, caller) {
        Ok(_) => shown,
        Err(Unspent { why, value }) => {
            value.abandon();
            Err(Trouble::Session(why))
        }
    }
}

/// Asks the network with a cancellation token, and cancels: the get ends, and so does the channel of its replies.
pub(crate) fn ask_and_cancel<B: Books, R: Wait + Print>(
    rt: &R,
    session: &Session<FifoSender<Item>, B>,
    caller: &mut Caller<B>,
) -> Result<(), Trouble> {
    let (sender, replies) = channel(session.alloc())?;
    let selector = Selector::new("garden/*/temp")?;
    let token = session.cancellation_token(rt, caller)?;
    let get = (&*session).get(&selector).with(sender);
    get.cancellation_token(&token).wait(rt, caller)?;
    token.cancel(rt, caller)?;
    match replies.try_recv(rt) {
        Ok(_) => Err(Trouble::Nothing),
        Err(why) => {
            println!(rt; "cancelled: {why}")?;
            Ok(())
        }
    }
}
