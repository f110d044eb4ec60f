//! Channels and the steps of the tests.
ghost use Rattle.std.specs.Prelude.{◌≡◌, is_some, true};
ghost use Rattle.zs_turns.specs.Gates.{takes_handler};

use crate::events::publication;
use std::alloc::Global;
use std::process::Abort;
use std::sync::{Arc, Wait};
use zs_cell::{Books, Caller, Item, NotSubmitted, Session};
use zs_declaring::{subscriber, undeclaration};
use zs_events::{EntityKind, Event, KeyArg};
use zs_handlers::{FifoChannel, FifoChannelHandler, FifoSender, Handler};
use zs_sample::{Locality, Text};

// Both ends of a channel with room for that many items.
pub(crate) fn channel<R: Abort>(
    rt: &R,
    alloc: Global,
    capacity: usize,
) -> (FifoSender<Item>, FifoChannelHandler<Item>) {
    match FifoChannel::new(capacity).into_handler(alloc) {
        Ok(ends) => ends,
        Err(_) => panic!(rt; "no channel"),
    }
}

// Steps a session by an event: what it was answered, if it was accepted.
fn submits<H: Handler<Item> + Drop, B: Books, R: Wait>(
    rt: &R,
    session: &Session<H, B>,
    event: Event,
    handler: Option<Arc<H>>,
    caller: &mut Caller<B>,
) -> Option<Option<u32>>
    requires { is_some handler ≡ true → takes_handler event ≡ true }
{
    match session.submit(rt, event, handler, caller) {
        Ok(number) => Some(number),
        Err(back) => {
            let NotSubmitted { why: _, handler } = back;
            drop(handler);
            None
        }
    }
}

// Declares a subscriber on `k`: its number.
pub(crate) fn subscribe<B: Books, R: Wait + Abort>(
    rt: &R,
    session: &Session<FifoSender<Item>, B>,
    sender: FifoSender<Item>,
    caller: &mut Caller<B>,
) -> u32 {
    let Ok(key) = Text::of(session.alloc(), "k") else {
        panic!(rt; "no memory")
    };
    let Ok(sender) = Arc::new(session.alloc(), sender) else {
        panic!(rt; "no memory")
    };
    let event = subscriber(Locality::Any, KeyArg::Text(key));
    match submits(rt, session, event, Some(sender), caller) {
        Some(Some(id)) => id,
        _ => panic!(rt; "no subscriber"),
    }
}

// Puts on `k`: whether it was accepted.
pub(crate) fn put<H: Handler<Item> + Drop, B: Books, R: Wait>(
    rt: &R,
    session: &Session<H, B>,
    caller: &mut Caller<B>,
) -> bool {
    match publication(session.alloc(), "k") {
        Ok(event) => submits(rt, session, event, None, caller).is_some(),
        Err(_) => false,
    }
}

// Ends a subscriber: whether it was accepted.
pub(crate) fn undeclare<B: Books, R: Wait>(
    rt: &R,
    session: &Session<FifoSender<Item>, B>,
    id: u32,
    caller: &mut Caller<B>,
) -> bool {
    session
        .tell(rt, undeclaration(EntityKind::Sub, id), caller)
        .is_ok()
}
