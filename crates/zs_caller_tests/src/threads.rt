//! Callers on several threads.
ghost use Rattle.std.specs.Prelude.{◌<◌};

use crate::stepping::{channel, put, subscribe};
use std::process::Abort;
use std::sync::Wait;
use std::sync::ledger::Ledger;
use std::thread;
use std::thread::Threads;
use zs_cell::{Books, Caller, EntryLedger, Item, Session, Three};
use zs_handlers::{FifoChannelHandler, FifoSender};

// Puts as often on `k`, and tells whether each put was accepted.
fn put_all<B: Books, R: Wait>(
    rt: &R,
    session: &Session<FifoSender<Item>, B>,
    mut caller: Caller<B>,
    times: u64,
) -> (Caller<B>, bool) {
    let mut all = true;
    for _ in 0..times {
        let accepted = put(rt, session, &mut caller);
        all = all && accepted;
    }
    (caller, all)
}

/// How often a receiver yields before it takes an item.
const TURNS: u64 = 200;

// Receives an item, if one comes, some time after the last one.
fn takes_one<R: Wait>(rt: &R, receiver: &FifoChannelHandler<Item>) -> bool {
    for _ in 0..TURNS {
        thread::yield_now();
    }
    match receiver.recv(rt) {
        Ok(item) => {
            drop(item);
            true
        }
        Err(_) => false,
    }
}

// Receives as many items.
fn take_all<R: Wait>(rt: &R, receiver: &FifoChannelHandler<Item>, times: u64) -> bool {
    let mut all = true;
    for _ in 0..times {
        all = takes_one(rt, receiver) && all;
    }
    all
}

// Two threads put beside each other, and a third one takes the items: both callers in one, and whether all went well.
fn run_three<
    E: EntryLedger + Send + Sync,
    S: Ledger + Send + Sync,
    D: Ledger + Send + Sync,
    R: Wait + Threads + Sync,
>(
    rt: &R,
    session: &Session<FifoSender<Item>, Three<E, S, D>>,
    receiver: &FifoChannelHandler<Item>,
    first: Caller<Three<E, S, D>>,
    second: Caller<Three<E, S, D>>,
) -> (Caller<Three<E, S, D>>, bool) {
    let ((first, second), taken) = thread::join(
        rt,
        move || {
            thread::join(
                rt,
                move || put_all(rt, session, first, 20),
                move || put_all(rt, session, second, 20),
            )
        },
        move || take_all(rt, receiver, 40),
    );
    let (first, first_ok) = first;
    let (second, second_ok) = second;
    (first.join(second), first_ok && second_ok && taken)
}

/// Two callers put beside each other for a subscriber whose fifo has room for one item and whose receiver is slow, so each put
/// waits until the one before it was taken. The session counts the entries of all.
pub(crate) fn three_threads<
    E: EntryLedger + Send + Sync,
    S: Ledger + Send + Sync,
    D: Ledger + Send + Sync,
    R: Wait + Abort + Threads + Sync,
>(rt: &R, session: &Session<FifoSender<Item>, Three<E, S, D>>, mut caller: Caller<Three<E, S, D>>)
    requires { 2 < caller.parts }
{
    let first = caller.split(1);
    let second = caller.split(1);
    let (sender, receiver) = channel(rt, session.alloc(), 1);
    subscribe(rt, session, sender, &mut caller);
    let (others, ok) = run_three(rt, session, &receiver, first, second);
    drop(receiver);
    assert!(rt; ok);
    let mut all = caller.join(others);
    assert!(rt; session.entries(rt, &mut all) == Some(41));
    drop(all);
}
