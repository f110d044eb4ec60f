//! What callers of one thread are told.
ghost use Rattle.std.specs.Prelude.{◌<◌};

use crate::stepping::{channel, put, subscribe, undeclare};
use std::process::Abort;
use std::sync::Wait;
use zs_cell::{Books, Caller, Entries, Entry, Item, Session};
use zs_events::{Answer, EntityKind, Event};
use zs_handlers::{FifoChannelHandler, FifoSender};
use zs_wire::Message;

/// What an event is about, or the message of one.
#[derive(Clone, Copy, PartialEq, Eq)]
enum About {
    Declaration,
    Publication,
    End,
    Other,
}

/// What a message is about: `Other` is what the steps here don't send.
fn message_about(message: &Message) -> About {
    match message {
        Message::DeclareSubscriber { .. } => About::Declaration,
        Message::Push { .. } => About::Publication,
        Message::UndeclareSubscriber { .. } => About::End,
        _ => About::Other,
    }
}

// What the message that is drained next is about, if there is one.
fn drained_about<H: Drop, B: Books, R: Wait>(
    rt: &R,
    session: &Session<H, B>,
    caller: &mut Caller<B>,
) -> Option<About> {
    match session.drain(rt, caller) {
        Some(message) => {
            let about = message_about(message.get());
            drop(message);
            Some(about)
        }
        None => None,
    }
}

/// What an event is about: `Other` is what the steps here don't take.
fn event_about(event: &Event) -> About {
    match event {
        Event::Sub { .. } => About::Declaration,
        Event::Publish { .. } => About::Publication,
        Event::Undeclare { .. } => About::End,
        _ => About::Other,
    }
}

// Whether an entry is of such an event, which was answered with that number.
fn is_entry(entry: &Entry, about: About, number: Option<u32>) -> bool {
    let answered = match entry.turn.get().answer {
        Answer::Ok(answered) => answered == number,
        Answer::Refused(_) => false,
    };
    answered && event_about(entry.event.get()) == about
}

// Whether the entry at that place is of such an event, which was answered with that number.
fn has_entry(journal: &Entries, place: usize, about: About, number: Option<u32>) -> bool {
    match journal.get(place) {
        Some(entry) => is_entry(entry, about, number),
        None => false,
    }
}

// Whether a journal has the three events alone.
fn has_three(journal: &Entries) -> bool {
    let declared = has_entry(journal, 0, About::Declaration, Some(2));
    let put = has_entry(journal, 1, About::Publication, None);
    let ended = has_entry(journal, 2, About::End, None);
    declared && put && ended && journal.len() == 3
}

// Whether there is a journal, and it has the three events alone.
fn tells_three_events(found: Option<Entries>) -> bool {
    match found {
        Some(journal) => {
            let told = has_three(&journal);
            drop(journal);
            told
        }
        None => false,
    }
}

// Whether the journal has the three events, for whoever has all parts.
fn tells_journal<H: Drop, B: Books, R: Wait>(
    rt: &R,
    session: &Session<H, B>,
    caller: &mut Caller<B>,
) -> bool {
    match session.journal(rt, caller) {
        Ok(found) => tells_three_events(found),
        Err(_) => false,
    }
}

// Whether the receiver is handed a sample next, if it is handed anything.
fn hears<R: Wait>(rt: &R, receiver: &FifoChannelHandler<Item>) -> Option<bool> {
    match receiver.recv(rt) {
        Ok(item) => {
            let is_sample = matches!(&item, Item::Sample(_));
            drop(item);
            Some(is_sample)
        }
        Err(_) => None,
    }
}

// Whether the receiver was handed one sample, and then the end.
fn heard_one<R: Wait>(rt: &R, receiver: &FifoChannelHandler<Item>) -> bool {
    let first = hears(rt, receiver);
    let end = hears(rt, receiver);
    first == Some(true) && end.is_none()
}

// Whether an event is the end of that subscriber.
fn is_end(event: &Event, number: u32) -> bool {
    match event {
        Event::Undeclare { kind, id } => *kind == EntityKind::Sub && *id == number,
        _ => false,
    }
}

// Whether the last receipt is that of the subscriber's undeclaration, as the third event.
fn is_third<B: Books>(caller: &Caller<B>, number: u32) -> bool {
    match caller.last() {
        Some(receipt) => {
            is_end(receipt.event(), number) && receipt.place() == 3 && receipt.count() == 3
        }
        None => false,
    }
}

// Declares a subscriber, puts and undeclares it: whether it was handed the put, and was told its end.
fn steps<B: Books, R: Wait + Abort>(
    rt: &R,
    session: &Session<FifoSender<Item>, B>,
    caller: &mut Caller<B>,
) -> bool {
    let (sender, receiver) = channel(rt, session.alloc(), 4);
    let id = subscribe(rt, session, sender, caller);
    let put = put(rt, session, caller);
    let ended = undeclare(rt, session, id, caller);
    let heard = heard_one(rt, &receiver);
    drop(receiver);
    id == 2 && put && ended && heard && is_third(caller, id)
}

// Whether just the message of each of the three events is drained.
fn drains_three<B: Books, R: Wait>(
    rt: &R,
    session: &Session<FifoSender<Item>, B>,
    caller: &mut Caller<B>,
) -> bool {
    let first = drained_about(rt, session, caller);
    let second = drained_about(rt, session, caller);
    let third = drained_about(rt, session, caller);
    let fourth = drained_about(rt, session, caller);
    first == Some(About::Declaration)
        && second == Some(About::Publication)
        && third == Some(About::End)
        && fourth.is_none()
}

// Whether such a caller is told three events with their turns, and the message of each.
fn tells_three<B: Books, R: Wait>(
    rt: &R,
    session: &Session<FifoSender<Item>, B>,
    caller: &mut Caller<B>,
) -> bool {
    let counted = session.entries(rt, caller) == Some(3);
    let drained = drains_three(rt, session, caller);
    let told = tells_journal(rt, session, caller);
    let own = caller.count() == 3 && caller.sent() == 3 && caller.drained() == 3;
    counted && drained && told && own
}

/// Steps a session with one caller, and looks at what it is told.
pub(crate) fn one_caller<B: Books, R: Wait + Abort>(
    rt: &R,
    session: &Session<FifoSender<Item>, B>,
    mut caller: Caller<B>,
) {
    let stepped = steps(rt, session, &mut caller);
    let told = tells_three(rt, session, &mut caller);
    drop(caller);
    assert!(rt; stepped);
    assert!(rt; told);
}

/// A share counts alone what it took.
pub(crate) fn two_callers<B: Books, R: Wait + Abort>(
    rt: &R,
    session: &Session<FifoSender<Item>, B>,
    mut caller: Caller<B>,
)
    requires { 2 < caller.parts }
{
    let mut other = caller.split(1);
    let taken = put(rt, session, &mut other);
    let shared = session.entries(rt, &mut caller);
    let mut all = caller.join(other);
    let whole = session.entries(rt, &mut all);
    drop(all);
    assert!(rt; taken && shared.is_none() && whole == Some(1));
}
