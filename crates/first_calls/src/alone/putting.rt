//! A subscriber, and a put that it is handed.
use crate::alone::showing::show;
use crate::channel::channel;
use crate::trouble::Trouble;
use std::io::Print;
use std::sync::Wait;
use zs_calls::{SessionCalls, Unspent};
use zs_cell::{Books, Caller, Item, Session};
use zs_entities::SessionEntities;
use zs_handlers::{FifoChannelHandler, FifoSender};
use zs_keys::KeyExpr;
use zs_sample::{Encoding, ZBytes};

/// Puts a text on a key, and shows what the subscriber was handed.
fn put_and_show<B: Books, R: Wait + Print>(
    rt: &R,
    session: &Session<FifoSender<Item>, B>,
    samples: &FifoChannelHandler<Item>,
    caller: &mut Caller<B>,
) -> Result<(), Trouble> {
    let key = KeyExpr::new("home/kitchen/temp")?;
    let payload = ZBytes::from_str(session.alloc(), "21")?;
    let put = session.put(key, payload).encoding(Encoding::TEXT_PLAIN);
    put.wait(rt, caller)?;
    show(rt, session.alloc(), samples)
}

/// Subscribes to all of a home, and puts.
pub(crate) fn subscribe_and_put<B: Books, R: Wait + Print>(
    rt: &R,
    session: &Session<FifoSender<Item>, B>,
    caller: &mut Caller<B>,
) -> Result<(), Trouble> {
    let (sender, samples) = channel(session.alloc())?;
    let home = KeyExpr::new("home/**")?;
    let subscriber = session.declare_subscriber(home).with(sender);
    let subscriber = subscriber.wait(rt, caller)?;
    let shown = put_and_show(rt, session, &samples, caller);
    match subscriber.undeclare().wait(rt, caller) {
        Ok(_) => shown,
        Err(Unspent { why, value }) => {
            value.abandon();
            Err(Trouble::Session(why))
        }
    }
}
