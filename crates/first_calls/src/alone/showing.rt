//! Prints what handlers were handed.
use crate::trouble::Trouble;
use std::alloc::Global;
use std::io::Print;
use std::sync::Wait;
use zs_cell::Item;
use zs_handlers::FifoChannelHandler;
use zs_sample::{MatchingStatus, Sample, SampleKind};

/// Prints a sample as its key and its text, or that the key was deleted.
fn show_sample<R: Print>(
    rt: &R,
    alloc: Global,
    word: &str,
    sample: &Sample,
) -> Result<(), Trouble> {
    let key = sample.key_expr().as_str();
    match sample.kind() {
        SampleKind::Put => {
            let text = sample.payload().try_to_string(alloc)?;
            let text = text.as_str();
            println!(rt; "{word} {key} is {text}")?;
        }
        SampleKind::Delete => println!(rt; "{word} {key} is deleted")?,
    }
    Ok(())
}

/// Prints what a listener is told.
fn show_status<R: Print>(rt: &R, status: MatchingStatus) -> Result<(), Trouble> {
    let matching = status.matching();
    println!(rt; "a queryable is there: {matching}")?;
    Ok(())
}

/// Prints a sample, a reply, or what a listener is told.
fn show_item<R: Print>(rt: &R, alloc: Global, item: &Item) -> Result<(), Trouble> {
    match item {
        Item::Sample(sample) => show_sample(rt, alloc, "sample:", sample.get()),
        Item::Reply(reply) => match reply.get().result() {
            Ok(sample) => show_sample(rt, alloc, "reply:", sample),
            Err(_) => Err(Trouble::ErrorReply),
        },
        Item::Matching(status) => show_status(rt, *status),
        Item::Query(_) => Err(Trouble::Nothing),
    }
}

/// Prints the next item of a channel.
pub(crate) fn show<R: Wait + Print>(
    rt: &R,
    alloc: Global,
    items: &FifoChannelHandler<Item>,
) -> Result<(), Trouble> {
    match items.try_recv(rt) {
        Ok(Some(item)) => show_item(rt, alloc, &item),
        _ => Err(Trouble::Nothing),
    }
}
