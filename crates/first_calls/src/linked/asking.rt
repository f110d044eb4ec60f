//! `z_queryable` there, and `z_get` here.
use crate::channel::channel;
use crate::linked::link::pass;
use crate::linked::showing::show;
use crate::trouble::Trouble;
use std::io::Print;
use std::sync::{Arc, Wait};
use zs_calls::{QueryCalls, QueryValues, SessionCalls};
use zs_cell::{Books, Caller, Item, Query, Session};
use zs_entities::SessionEntities;
use zs_handlers::{FifoChannelHandler, FifoSender};
use zs_keys::KeyExpr;
use zs_sample::{Selector, ZBytes};

/// Answers a query, and gives it back.
fn answer<B: Books, R: Wait + Print>(
    rt: &R,
    session: &Session<FifoSender<Item>, B>,
    query: Query,
    caller: &mut Caller<B>,
) -> Result<(), Trouble> {
    let key = query.key_expr().as_str();
    println!(rt; ">> [Queryable] Received Query '{key}'")?;
    let key = KeyExpr::new("demo/example/zenoh-queryable")?;
    let payload = ZBytes::from_str(session.alloc(), "Queryable from Rattle!")?;
    query.reply(&*session, key, payload).wait(rt, caller)?;
    match query.finish(rt, session, caller) {
        Ok(()) => Ok(()),
        Err(unspent) => Err(Trouble::Session(unspent.why)),
    }
}

/// Declares the queryable, which lives until its session is closed.
fn offer<B: Books, R: Wait>(
    rt: &R,
    session: &Session<FifoSender<Item>, B>,
    sender: Arc<FifoSender<Item>>,
    caller: &mut Caller<B>,
) -> Result<(), Trouble> {
    let key = KeyExpr::new("demo/example/zenoh-queryable")?;
    let queryable = session.declare_queryable(key).with(sender);
    queryable.background().wait(rt, caller)?;
    Ok(())
}

/// Asks, with a channel for the replies.
fn ask<B: Books, R: Wait>(
    rt: &R,
    session: &Session<FifoSender<Item>, B>,
    sender: Arc<FifoSender<Item>>,
    caller: &mut Caller<B>,
) -> Result<(), Trouble> {
    let selector = Selector::new("demo/example/**")?;
    let get = (&*session).get(&selector).with(sender);
    get.wait(rt, caller)?;
    Ok(())
}

/// Answers the next query that a queryable was handed.
fn answer_next<B: Books, R: Wait + Print>(
    rt: &R,
    session: &Session<FifoSender<Item>, B>,
    queries: &FifoChannelHandler<Item>,
    caller: &mut Caller<B>,
) -> Result<(), Trouble> {
    match queries.try_recv(rt) {
        Ok(Some(Item::Query(query))) => answer(rt, session, query, caller),
        _ => Err(Trouble::Nothing),
    }
}

/// Asks here, answers there, and shows the reply.
fn ask_and_show<A: Books, B: Books, R: Wait + Print>(
    rt: &R,
    here: &Session<FifoSender<Item>, A>,
    here_caller: &mut Caller<A>,
    there: &Session<FifoSender<Item>, B>,
    there_caller: &mut Caller<B>,
    queries: &FifoChannelHandler<Item>,
) -> Result<(), Trouble> {
    let (sender, replies) = channel(here.alloc())?;
    ask(rt, here, sender, here_caller)?;
    pass(rt, here, here_caller, there, there_caller)?;
    answer_next(rt, there, queries, there_caller)?;
    pass(rt, there, there_caller, here, here_caller)?;
    show(rt, here.alloc(), "Received", &replies)
}

/// Declares a queryable there, asks here, and shows the reply.
pub(crate) fn ask_there<A: Books, B: Books, R: Wait + Print>(
    rt: &R,
    here: &Session<FifoSender<Item>, A>,
    here_caller: &mut Caller<A>,
    there: &Session<FifoSender<Item>, B>,
    there_caller: &mut Caller<B>,
) -> Result<(), Trouble> {
    let (sender, queries) = channel(there.alloc())?;
    offer(rt, there, sender, there_caller)?;
    pass(rt, there, there_caller, here, here_caller)?;
    ask_and_show(rt, here, here_caller, there, there_caller, &queries)
}
