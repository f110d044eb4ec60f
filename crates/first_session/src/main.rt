//! A session as a program uses it: it declares a subscriber, puts twice, and prints what each step gives.
#![tactic(auto)]

use anyhow::Result;
use std::alloc::{AllocError, Global};
use zs_core::{Effect, Event, HandOver, KeyArg, SessionState, Settings};
use zs_events::{Chan, PublicationQuality, PushBody, Shared, Update};
use zs_sample::{CongestionControl, Locality, QoSType, Text, ZBytes};
use zs_script::print_turn;

/// A subscriber on these keys, for publications of any origin.
fn subscriber(alloc: Global, keys: &str) -> Result<Event, AllocError> {
    Ok(Event::Sub {
        origin: Locality::Any,
        key: KeyArg::Text(Text::of(alloc, keys)?),
        to: Chan::Print,
    })
}

/// A put of a text on this key, for this session and the network.
fn put(alloc: Global, key: &str, text: &str) -> Result<Event, AllocError> {
    let key = KeyArg::Text(Text::of(alloc, key)?);
    let payload = ZBytes::from_str(alloc, text)?;
    let encoding = Some(Text::of(alloc, "text/plain")?);
    let update = Update {
        body: PushBody::Put { payload, encoding },
        timestamp: None,
        source: None,
        attachment: None,
    };
    let qos = QoSType {
        priority: 5,
        congestion: CongestionControl::Drop,
        express: false,
    };
    Ok(Event::Publish {
        destination: Locality::Any,
        key,
        update: Shared::new(alloc, update)?,
        quality: PublicationQuality {
            qos,
            reliable: true,
        },
    })
}

/// Prints an effect as a program would act on it.
fn act(rt: &impl Print, effect: &Effect) -> Result<()> {
    match effect {
        // What it would send, the printed turn has told.
        Effect::Send(_) => {}
        Effect::Hand(HandOver::Sample { id, sample, .. }) => {
            let sample = sample.get();
            let key = sample.key_expr().as_str();
            let size = sample.payload().len();
            println!(rt; "subscriber {id} is handed {size} bytes on {key}")?;
        }
        Effect::Hand(HandOver::Reply { id, reply, .. }) => match reply.get().result() {
            Ok(sample) => {
                let key = sample.key_expr().as_str();
                println!(rt; "get {id} has a value on {key}")?;
            }
            Err(_) => println!(rt; "get {id} has an error")?,
        },
        Effect::Hand(HandOver::Query { id, query, .. }) => {
            let key = query.get().key_expr().as_str();
            println!(rt; "queryable {id} is asked for {key}")?;
        }
        Effect::End { id, .. } => println!(rt; "{id} has ended")?,
        Effect::Matching { id, matching: true } => println!(rt; "listener {id} is matched")?,
        Effect::Matching {
            id,
            matching: false,
        } => println!(rt; "listener {id} is alone")?,
    }
    Ok(())
}

/// Opens a session and takes it through its events, each with the lines that a script's run would print of it.
fn run(rt: &impl Print, alloc: Global) -> Result<()> {
    let mut state = SessionState::new(alloc, &Settings::default())?;
    let events = [
        subscriber(alloc, "home/**")?,
        put(alloc, "home/kitchen/temp", "21")?,
        put(alloc, "garden/temp", "12")?,
        Event::Close,
    ];
    for (index, event) in events.iter().enumerate() {
        let turn = state.step(event)?;
        let lines = print_turn(alloc, (index as u64).saturating_add(1), &turn)?;
        let text = lines.as_str();
        print!(rt; "{text}")?;
        for effect in turn.effects.as_slice() {
            act(rt, effect)?;
        }
    }
    Ok(())
}

/// Runs the session, with the system's memory and its standard output.
fn main(rt: HostRuntime) -> Result<()> {
    run(&rt, rt.alloc())
}
