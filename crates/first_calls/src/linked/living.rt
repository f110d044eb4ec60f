//! `z_sub_liveliness` there, and `z_liveliness` here.
use crate::channel::channel;
use crate::linked::link::pass;
use crate::linked::showing::show;
use crate::trouble::Trouble;
use std::io::Print;
use std::sync::{Arc, Wait};
use zs_calls::Unspent;
use zs_cell::{Books, Caller, Item, Session};
use zs_entities::SessionLiveliness;
use zs_handlers::FifoSender;
use zs_keys::KeyExpr;

/// Declares the subscriber to tokens, which lives until its session is closed.
fn watch<B: Books, R: Wait>(
    rt: &R,
    session: &Session<FifoSender<Item>, B>,
    sender: Arc<FifoSender<Item>>,
    caller: &mut Caller<B>,
) -> Result<(), Trouble> {
    let key = KeyExpr::new("group1/**")?;
    let subscriber = session.liveliness().declare_subscriber(key).with(sender);
    subscriber.background().wait(rt, caller)?;
    Ok(())
}

/// Declares a token here, tells the other session, and ends it.
fn live_and_end<A: Books, B: Books, R: Wait>(
    rt: &R,
    here: &Session<FifoSender<Item>, A>,
    here_caller: &mut Caller<A>,
    there: &Session<FifoSender<Item>, B>,
    there_caller: &mut Caller<B>,
) -> Result<(), Trouble> {
    let key = KeyExpr::new("group1/zenoh-rs")?;
    let token = here.liveliness().declare_token(key);
    let token = token.wait(rt, here_caller)?;
    let passed = pass(rt, here, here_caller, there, there_caller);
    match token.undeclare().wait(rt, here_caller) {
        Ok(_) => passed,
        Err(Unspent { why, value }) => {
            value.abandon();
            Err(Trouble::Session(why))
        }
    }
}

/// Watches tokens there, lets one live and end here, and shows both.
pub(crate) fn live_here<A: Books, B: Books, R: Wait + Print>(
    rt: &R,
    here: &Session<FifoSender<Item>, A>,
    here_caller: &mut Caller<A>,
    there: &Session<FifoSender<Item>, B>,
    there_caller: &mut Caller<B>,
) -> Result<(), Trouble> {
    let (sender, tokens) = channel(there.alloc())?;
    watch(rt, there, sender, there_caller)?;
    live_and_end(rt, here, here_caller, there, there_caller)?;
    pass(rt, here, here_caller, there, there_caller)?;
    show(rt, there.alloc(), "[Liveliness] Token", &tokens)?;
    show(rt, there.alloc(), "[Liveliness] Token", &tokens)
}
