//! Prints what handlers were handed.
use crate::trouble::Trouble;
use std::alloc::Global;
use std::io::Print;
use std::sync::Wait;
use zs_cell::Item;
use zs_handlers::FifoChannelHandler;
use zs_sample::{Sample, SampleKind};

/// Prints a sample: its kind, its key and its text.
fn show_sample<R: Print>(
    rt: &R,
    alloc: Global,
    words: &str,
    sample: &Sample,
) -> Result<(), Trouble> {
    let kind = match sample.kind() {
        SampleKind::Put => "PUT",
        SampleKind::Delete => "DELETE",
    };
    let key = sample.key_expr().as_str();
    let text = sample.payload().try_to_string(alloc)?;
    let text = text.as_str();
    println!(rt; ">> {words} {kind} ('{key}': '{text}')")?;
    Ok(())
}

/// Prints the next item of a channel, which is a sample or a reply.
pub(crate) fn show<R: Wait + Print>(
    rt: &R,
    alloc: Global,
    words: &str,
    items: &FifoChannelHandler<Item>,
) -> Result<(), Trouble> {
    match items.try_recv(rt) {
        Ok(Some(Item::Sample(sample))) => show_sample(rt, alloc, words, sample.get()),
        Ok(Some(Item::Reply(reply))) => match reply.get().result() {
            Ok(sample) => show_sample(rt, alloc, words, sample),
            Err(_) => Err(Trouble::ErrorReply),
        },
        _ => Err(Trouble::Nothing),
    }
}
