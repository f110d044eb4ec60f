//! `z_sub` there, and `z_pub` here.
use crate::channel::channel;
use crate::linked::link::pass;
use crate::linked::showing::show;
use crate::trouble::Trouble;
use std::io::Print;
use std::sync::{Arc, Wait};
use zs_calls::Unspent;
use zs_cell::{Books, Caller, Item, Session};
use zs_entities::SessionEntities;
use zs_handlers::FifoSender;
use zs_keys::KeyExpr;
use zs_sample::ZBytes;

/// Declares a publisher, and publishes once.
fn publish<B: Books, R: Wait>(
    rt: &R,
    session: &Session<FifoSender<Item>, B>,
    caller: &mut Caller<B>,
) -> Result<(), Trouble> {
    let payload = ZBytes::from_str(session.alloc(), "[   0] Pub from Rattle!")?;
    let key = KeyExpr::new("demo/example/zenoh-pub")?;
    let publisher = session.declare_publisher(key).wait(rt, caller)?;
    let published = publisher.put(payload).wait(rt, caller);
    match publisher.undeclare().wait(rt, caller) {
        Ok(_) => Ok(published?),
        Err(Unspent { why, value }) => {
            value.abandon();
            Err(Trouble::Session(why))
        }
    }
}

/// Declares the subscriber, which lives until its session is closed.
fn subscribe<B: Books, R: Wait>(
    rt: &R,
    session: &Session<FifoSender<Item>, B>,
    sender: Arc<FifoSender<Item>>,
    caller: &mut Caller<B>,
) -> Result<(), Trouble> {
    let key = KeyExpr::new("demo/example/**")?;
    let subscriber = session.declare_subscriber(key).with(sender);
    subscriber.background().wait(rt, caller)?;
    Ok(())
}

/// Subscribes there, publishes here, and shows what comes there.
pub(crate) fn publish_here<A: Books, B: Books, R: Wait + Print>(
    rt: &R,
    here: &Session<FifoSender<Item>, A>,
    here_caller: &mut Caller<A>,
    there: &Session<FifoSender<Item>, B>,
    there_caller: &mut Caller<B>,
) -> Result<(), Trouble> {
    let (sender, samples) = channel(there.alloc())?;
    subscribe(rt, there, sender, there_caller)?;
    pass(rt, there, there_caller, here, here_caller)?;
    publish(rt, here, here_caller)?;
    pass(rt, here, here_caller, there, there_caller)?;
    show(rt, there.alloc(), "[Subscriber] Received", &samples)
}
