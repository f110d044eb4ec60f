//! A queryable, and a get that it answers.
use crate::alone::showing::show;
use crate::channel::channel;
use crate::trouble::Trouble;
use std::io::Print;
use std::sync::Wait;
use zs_calls::{QueryCalls, QueryValues, SessionCalls, Unspent};
use zs_cell::{Books, Caller, Item, Query, Session};
use zs_entities::SessionEntities;
use zs_handlers::{FifoChannelHandler, FifoSender};
use zs_keys::KeyExpr;
use zs_sample::{Locality, Selector, ZBytes};

/// Answers a query with a text, and gives it back.
fn answer<B: Books, R: Wait>(
    rt: &R,
    session: &Session<FifoSender<Item>, B>,
    query: Query,
    caller: &mut Caller<B>,
) -> Result<(), Trouble> {
    let key = KeyExpr::new("home/kitchen/temp")?;
    let payload = ZBytes::from_str(session.alloc(), "21")?;
    query.reply(&*session, key, payload).wait(rt, caller)?;
    match query.finish(rt, session, caller) {
        Ok(()) => Ok(()),
        Err(unspent) => Err(Trouble::Session(unspent.why)),
    }
}

/// Answers the next query that a queryable was handed.
pub(crate) fn answer_next<B: Books, R: Wait>(
    rt: &R,
    session: &Session<FifoSender<Item>, B>,
    queries: &FifoChannelHandler<Item>,
    caller: &mut Caller<B>,
) -> Result<(), Trouble> {
    match queries.try_recv(rt) {
        Ok(Some(Item::Query(query))) => answer(rt, session, query, caller),
        _ => Err(Trouble::Nothing),
    }
}

/// Asks, answers the query that the queryable is handed, and shows the reply.
fn ask_and_show<B: Books, R: Wait + Print>(
    rt: &R,
    session: &Session<FifoSender<Item>, B>,
    queries: &FifoChannelHandler<Item>,
    caller: &mut Caller<B>,
) -> Result<(), Trouble> {
    let (sender, replies) = channel(session.alloc())?;
    let selector = Selector::new("home/*/temp?unit=C")?;
    let get = (&*session).get(&selector).with(sender);
    let number = get
        .allowed_destination(Locality::SessionLocal)
        .wait(rt, caller)?;
    println!(rt; "get {number} asks")?;
    answer_next(rt, session, queries, caller)?;
    show(rt, session.alloc(), &replies)
}

/// Declares a queryable for a home, and asks.
pub(crate) fn offer_and_ask<B: Books, R: Wait + Print>(
    rt: &R,
    session: &Session<FifoSender<Item>, B>,
    caller: &mut Caller<B>,
) -> Result<(), Trouble> {
    let (sender, queries) = channel(session.alloc())?;
    let home = KeyExpr::new("home/**")?;
    let queryable = session.declare_queryable(home).with(sender);
    let queryable = queryable.wait(rt, caller)?;
    let shown = ask_and_show(rt, session, &queries, caller);
    match queryable.undeclare().wait(rt, caller) {
        Ok(_) => shown,
        Err(Unspent { why, value }) => {
            value.abandon();
            Err(Trouble::Session(why))
        }
    }
}
