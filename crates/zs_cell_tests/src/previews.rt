//! The turn that a preview gives is that of the step behind it.

use crate::events::{put, subscriber};
use std::alloc::{AllocError, Global};
use zs_core::{SessionState, Settings};
use zs_events::{Event, Turn};
use zs_printing::print_turn;
use zs_sample::Text;

// The turns of a subscriber, of a put that it hears, and of the close.
const TURNS: &str = "\
1\tok\t2
1\tsend\tsub\t2\ts0:test/k
2\tok
2\tsend\tpush\ts0:test/k\tput\tx7a656e6f68\tenc=zenoh/bytes\tprio=5\tcc=drop\texpress=0\trel=1
2\thand\tsub\t2\tput\ttest/k\tx7a656e6f68\tenc=zenoh/bytes\tprio=5\tcc=drop\texpress=0\trel=1
3\tok
3\tsend\tclose
3\tend\tsub\t2
";

// What is printed of turns: as they were foreseen, and as they were taken.
#[derive(Drop)]
struct Printed {
    foreseen: String,
    taken: String,
}

// The text of a turn.
fn text_of(alloc: Global, number: u64, turn: Turn) -> Result<Text, AllocError> {
    let text = print_turn(alloc, number, &turn);
    drop(turn);
    text
}

// The text of the turn that the event would have.
fn foresee(
    alloc: Global,
    state: &SessionState,
    number: u64,
    event: &Event,
) -> Result<Text, AllocError> {
    let turn = state.preview(event)?;
    text_of(alloc, number, turn)
}

// The text of the turn that the event has.
fn take(
    alloc: Global,
    state: &mut SessionState,
    number: u64,
    event: &Event,
) -> Result<Text, AllocError> {
    let turn = state.step(event)?;
    text_of(alloc, number, turn)
}

// Foresees the event, and takes it.
fn note(
    alloc: Global,
    state: &mut SessionState,
    number: u64,
    event: &Event,
    printed: &mut Printed,
) -> Result<(), AllocError> {
    let text = foresee(alloc, state, number, event)?;
    printed.foreseen.push_str(text.as_str())?;
    let text = take(alloc, state, number, event)?;
    printed.taken.push_str(text.as_str())?;
    Ok(())
}

// A subscriber hears a put, and ends with the session.
fn run(alloc: Global, printed: &mut Printed) -> Result<(), AllocError> {
    let mut state = SessionState::new(alloc, &Settings::default())?;
    let declared = subscriber(alloc, "test/k")?;
    note(alloc, &mut state, 1, declared.get(), printed)?;
    let published = put(alloc, "test/k", "zenoh")?;
    note(alloc, &mut state, 2, &published, printed)?;
    note(alloc, &mut state, 3, &Event::Close, printed)?;
    Ok(())
}

/// Each turn is foreseen as it is taken then, and both are the worked ones.
#[test]
fn foresees_each_turn(rt: HostRuntime) {
    let alloc = rt.alloc();
    let mut printed = Printed {
        foreseen: String::new(alloc),
        taken: String::new(alloc),
    };
    run(alloc, &mut printed).expect(&rt, "memory");
    assert_eq!(rt; printed.foreseen.as_str(), TURNS);
    assert_eq!(rt; printed.taken.as_str(), TURNS);
}
