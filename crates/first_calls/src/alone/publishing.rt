//! A publisher, and a subscriber that hears it and whose callbacks are waited for.
use crate::alone::showing::show;
use crate::channel::channel;
use crate::trouble::Trouble;
use std::alloc::Global;
use std::io::Print;
use std::sync::Wait;
use zs_calls::Unspent;
use zs_cell::{Books, Caller, Item, Session};
use zs_entities::{Publisher, SessionEntities};
use zs_handlers::{FifoChannelHandler, FifoSender};
use zs_keys::KeyExpr;
use zs_sample::{Encoding, ZBytes};

/// Publishes a temperature, and takes it back.
fn publish<B: Books, R: Wait + Print>(
    rt: &R,
    alloc: Global,
    publisher: &Publisher<'_, FifoSender<Item>, B>,
    caller: &mut Caller<B>,
) -> Result<(), Trouble> {
    let heard = publisher.matching_status(rt, caller)?.matching();
    println!(rt; "someone listens: {heard}")?;
    let payload = ZBytes::from_str(alloc, "21")?;
    publisher.put(payload).wait(rt, caller)?;
    publisher.delete().wait(rt, caller)?;
    Ok(())
}

/// Declares the kitchen's publisher, and ends it once it has published.
fn declare_and_publish<B: Books, R: Wait + Print>(
    rt: &R,
    session: &Session<FifoSender<Item>, B>,
    caller: &mut Caller<B>,
) -> Result<(), Trouble> {
    let key = KeyExpr::new("home/kitchen/temp")?;
    let publisher = session.declare_publisher(key);
    let publisher = publisher.encoding(Encoding::TEXT_PLAIN);
    let publisher = publisher.wait(rt, caller)?;
    let published = publish(rt, session.alloc(), &publisher, caller);
    match publisher.undeclare().wait(rt, caller) {
        Ok(_) => published,
        Err(Unspent { why, value }) => {
            value.abandon();
            Err(Trouble::Session(why))
        }
    }
}

/// Publishes twice, and shows what the subscriber was handed.
fn publish_and_show<B: Books, R: Wait + Print>(
    rt: &R,
    session: &Session<FifoSender<Item>, B>,
    samples: &FifoChannelHandler<Item>,
    caller: &mut Caller<B>,
) -> Result<(), Trouble> {
    declare_and_publish(rt, session, caller)?;
    show(rt, session.alloc(), samples)?;
    show(rt, session.alloc(), samples)
}

/// Subscribes to all of a home while its kitchen publishes, and waits in the end until the subscriber's callbacks have ended.
pub(crate) fn subscribe_and_publish<B: Books, R: Wait + Print>(
    rt: &R,
    session: &Session<FifoSender<Item>, B>,
    caller: &mut Caller<B>,
) -> Result<(), Trouble> {
    let (sender, samples) = channel(session.alloc())?;
    let home = KeyExpr::new("home/**")?;
    let subscriber = session.declare_subscriber(home).with(sender);
    let subscriber = subscriber.wait(rt, caller)?;
    let shown = publish_and_show(rt, session, &samples, caller);
    match subscriber.undeclare().wait_callbacks().wait(rt, caller) {
        Ok(drained) => {
            let ended = drained.is_some();
            println!(rt; "callbacks have ended: {ended}")?;
            shown
        }
        Err(Unspent { why, value }) => {
            value.abandon();
            Err(Trouble::Session(why))
        }
    }
}
