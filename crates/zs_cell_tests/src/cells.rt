//! Subscribers that are called, refused, and told their ends.
ghost use Rattle.std.specs.Prelude.{map};
ghost use Rattle.zs_posts.specs.Calls.{call_seen, all_lents};
ghost use Rattle.zs_hands.specs.Answers.{AreOfRoom};

use crate::events::{put, subscriber};
use std::alloc::{AllocError, Global};
use std::process::Abort;
use std::sync::atomic::{AtomicU64, Ordering};
use std::sync::{Arc, Wait};
use zs_core::Settings;
use zs_events::{EntityKind, Event, Kind, Shared};
use zs_gate::{Drained, Inside};
use zs_handlers::{Handled, Handler};
use zs_hands::Handed;
use zs_posts::Key;
use zs_session_cell::{Handing, NotTaken, SessionCell};
use zs_turns::Item;

// Counts its calls.
#[derive(Debug, Drop)]
struct Count(AtomicU64);

impl Handler<Item> for Count {
    type Done = u64;

    /// Counts the call, and tells how many were before it.
    fn on<R: Wait>(&self, _rt: &R, _inside: &Inside, item: Item) -> Handled<Item, u64> {
        drop(item);
        Handled::Taken(self.0.fetch_add(1, Ordering::SeqCst))
    }

    /// Tells how many calls there were.
    fn ended<R: Wait>(&self, _rt: &R, _drained: &Drained) -> u64 {
        self.0.load(Ordering::SeqCst)
    }
}

// What became of the item of a call, as a letter.
fn letter_of(report: Handed<Item, u64>) -> char {
    match report {
        Handed::Called(_) => 'c',
        Handed::Evicted(item, _) => {
            drop(item);
            'e'
        }
        Handed::Skipped(item) => {
            drop(item);
            's'
        }
    }
}

// One letter for each report.
fn letters(rt: &impl Abort, reports: Vec<Handed<Item, u64>>, log: &mut String) {
    for report in reports.into_iter() {
        log.push(letter_of(report)).expect(rt, "memory");
    }
    log.push(' ').expect(rt, "memory");
}

// Runs the calls of an event, and gives their passes back.
fn finish<R: Abort + Wait>(
    rt: &R,
    cell: &mut SessionCell<Count>,
    handing: Handing<Count, u64>,
    log: &mut String,
)
    requires { AreOfRoom cell.old.exchange.posts.room (all_lents (map call_seen handing.calls)) }
{
    let ran = handing.run(rt);
    let reports = cell.give_back(ran);
    letters(rt, reports, log);
}

// Notes that a handler came back, if one did.
fn note(rt: &impl Abort, back: Option<Arc<Count>>, log: &mut String) {
    match back {
        Some(handler) => {
            drop(handler);
            log.push('r').expect(rt, "memory");
        }
        None => {}
    }
}

// An event that wasn't taken.
fn note_lost(rt: &impl Abort, lost: NotTaken<Count>, log: &mut String) {
    drop(lost);
    log.push('n').expect(rt, "memory");
}

// Takes an event that comes without a handler.
fn step<R: Abort + Wait>(
    rt: &R,
    alloc: Global,
    cell: &mut SessionCell<Count>,
    event: Result<Event, AllocError>,
    log: &mut String,
) {
    let event = Shared::new(alloc, event.expect(rt, "memory")).expect(rt, "memory");
    match cell.take::<u64>(event, None) {
        Ok(handing) => finish(rt, cell, handing, log),
        Err(lost) => note_lost(rt, lost, log),
    }
}

// Declares a subscriber with a handler of its own.
fn declare<R: Abort + Wait>(
    rt: &R,
    alloc: Global,
    cell: &mut SessionCell<Count>,
    keys: &str,
    log: &mut String,
) {
    let handler = Arc::new(alloc, Count(AtomicU64::new(0))).expect(rt, "memory");
    let event = subscriber(alloc, keys).expect(rt, "memory");
    match cell.take::<u64>(event, Some(handler)) {
        Ok(mut handing) => {
            let back = handing.refused();
            note(rt, back, log);
            finish(rt, cell, handing, log);
        }
        Err(lost) => note_lost(rt, lost, log),
    }
}

// Notes what a handler told at its end, or that a gate without a handler ended.
fn note_end(rt: &impl Abort, alloc: Global, done: Option<u64>, log: &mut String) {
    let text = match done {
        Some(count) => format!(in alloc; "told {count} "),
        None => format!(in alloc; "gate "),
    };
    log.push_str(text.expect(rt, "memory").as_str())
        .expect(rt, "memory");
}

// Tells all handlers whose callbacks have ended.
fn tell<R: Abort + Wait>(rt: &R, alloc: Global, cell: &mut SessionCell<Count>, log: &mut String) {
    for _ in 0..3 {
        match cell.ending() {
            Some(ending) => {
                let (drained, done) = ending.tell::<Item, _>(rt);
                drop(drained);
                note_end(rt, alloc, done, log);
            }
            None => {}
        }
    }
}

// A new session.
fn open(rt: &impl Abort, alloc: Global) -> SessionCell<Count> {
    let settings = Settings::default();
    SessionCell::new(alloc, &settings, true).expect(rt, "memory")
}

// Two subscribers hear puts, a third one is refused, one ends by its undeclaration, the other with the session.
fn run<R: Abort + Wait>(rt: &R, alloc: Global, cell: &mut SessionCell<Count>, log: &mut String) {
    declare(rt, alloc, cell, "a/**", log);
    declare(rt, alloc, cell, "**", log);
    step(rt, alloc, cell, put(alloc, "a/b", "1"), log);
    step(rt, alloc, cell, put(alloc, "c", "1"), log);
    declare(rt, alloc, cell, "a//b", log);
    let over = Event::Undeclare {
        kind: EntityKind::Sub,
        id: 3,
    };
    step(rt, alloc, cell, Ok(over), log);
    tell(rt, alloc, cell, log);
    step(rt, alloc, cell, put(alloc, "a/b", "1"), log);
    step(rt, alloc, cell, Ok(Event::Close), log);
    tell(rt, alloc, cell, log);
}

/// Subscribers are called for what they hear, a refused handler comes back, and each other one is told its end.
#[test]
fn calls_and_tells_the_end(rt: HostRuntime) {
    let alloc = rt.alloc();
    let mut log = String::new(alloc);
    let mut cell = open(&rt, alloc);
    run(&rt, alloc, &mut cell, &mut log);
    let holds_its_own = cell.holds(Key::Session);
    let holds_the_first = cell.holds(Key::Of(Kind::Subscriber, 2));
    drop(cell);
    assert_eq!(rt; log.as_str(), "  cc c r  told 2 c  told 2 ");
    assert!(rt; holds_its_own && !holds_the_first);
}
