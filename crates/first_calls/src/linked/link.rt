//! The link between the sessions.
use crate::trouble::Trouble;
use std::sync::Wait;
use zs_cell::{Books, Caller, Item, Session};
use zs_handlers::FifoSender;

/// Hands all messages that one session has sent to the other one.
pub(crate) fn pass<A: Books, B: Books, R: Wait>(
    rt: &R,
    from: &Session<FifoSender<Item>, A>,
    from_caller: &mut Caller<A>,
    to: &Session<FifoSender<Item>, B>,
    to_caller: &mut Caller<B>,
) -> Result<(), Trouble> {
    for _ in rt.forever() {
        let Some(sent) = from.drain(rt, from_caller) else {
            return Ok(());
        };
        let message = sent.get().try_clone(to.alloc());
        drop(sent);
        to.recv(rt, message?, to_caller)?;
    }
    unreachable!()
}
