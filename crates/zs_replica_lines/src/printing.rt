//! What is printed of stores, and of gets that end. `number` is the line's, from 1, and `side` the letter of the side.

ghost use Rattle.std.specs.Prelude.{◌≡◌, [], ◌∷◌, ◌++◌, OnOk, Ok, codes};
ghost use Rattle.std.specs.String.{string_bytes};
ghost use Rattle.zs_bytes.specs.Payload.{bytes_of};
ghost use Rattle.zs_printing.specs.Printing.{line, tabbed};
ghost use Rattle.zs_printing.specs.Words.{timestamp_text};
ghost use Rattle.zs_store.specs.Entry.{seen};
ghost use Rattle.zs_replica_lines.specs.Shown.{time_fields, entry_fields, write_text, store_text, got_text, replied_text, item_text, ended_text, effect_text, ends_text};

use std::alloc::AllocError;
use std::fmt::Write;
use zs_bytes::ZBytes;
use zs_events::{Effect, Effects, HandOver, Kind};
use zs_sample::{Reply, Sample};
use zs_script::{append_bytes, append_hex};
use zs_store::{Entry, Store};
use zs_wire::{SampleKind, Timestamp};

/// Puts a line for each key of a store behind a text: `NUMBER SIDE has KEY put BYTES TS` or `NUMBER SIDE has KEY del TS`. The
/// keys ascend by their bytes.
pub fn append_store(
    out: &mut String,
    number: u64,
    side: &str,
    store: &Store,
) -> Result<(), AllocError>
    ensures { OnOk result (string_bytes out.new ≡ string_bytes out.old ++ store_text number side.now store.now) }
{
    'entries: for (key, entry) in store.iter() {
        append_write(out, number, side, key.as_str(), entry)?;
    }
    Ok(())
}

/// Puts the line of one key of a store behind a text.
#[tactic(auto, using(crate::proofs::Joining::joining))]
fn append_write(
    out: &mut String,
    number: u64,
    side: &str,
    key: &str,
    entry: &Entry,
) -> Result<(), AllocError>
    ensures { OnOk result (string_bytes out.new
        ≡ string_bytes out.old ++ write_text number side.now (record { key = key.now; entry = seen entry.now })) }
{
    write!(out, "{number}\t{side}\thas\t{key}")?;
    append_entry(out, entry.kind, &entry.payload, Some(entry.timestamp))
}

/// What was written, and the end of the line.
#[tactic(auto, using(crate::proofs::Joining::joining))]
fn append_entry(
    out: &mut String,
    kind: SampleKind,
    payload: &ZBytes,
    time: Option<Timestamp>,
) -> Result<(), AllocError>
    ensures { OnOk result (string_bytes out.new
        ≡ string_bytes out.old ++ tabbed (entry_fields kind (bytes_of payload.now) time)) }
{
    match kind {
        SampleKind::Put => {
            out.push_str("\tput\t")?;
            append_bytes(out, payload)?;
        }
        SampleKind::Delete => out.push_str("\tdel")?,
    }
    append_time(out, time)
}

/// The moment, where it is told, and the end of the line.
#[tactic(auto, using(crate::proofs::Joining::joining))]
fn append_time(out: &mut String, time: Option<Timestamp>) -> Result<(), AllocError>
    ensures { OnOk result (string_bytes out.new ≡ string_bytes out.old ++ tabbed (time_fields time)) }
{
    match time {
        None => out.push('\n'),
        Some(time) => {
            append_timestamp(out, time)?;
            out.push('\n')
        }
    }
}

/// A tab, the time as a number, a colon, and who took it in hexadecimal digits.
#[tactic(auto, using(crate::proofs::Joining::joining))]
fn append_timestamp(out: &mut String, stamp: Timestamp) -> Result<(), AllocError>
    ensures { OnOk result (string_bytes out.new ≡ string_bytes out.old ++ 9 ∷ timestamp_text stamp) }
{
    let Timestamp { time, id } = stamp;
    write!(out, "\t{time}:")?;
    append_hex(out, id)
}

/// Puts a line behind a text for each reply among effects that a get is handed, `NUMBER SIDE got GET KEY put BYTES TS` or
/// `NUMBER SIDE got GET KEY del TS`, and for each get that they end, `NUMBER SIDE end GET`. A reply that is an error has none.
pub fn append_ends(
    out: &mut String,
    number: u64,
    side: &str,
    effects: &Effects,
) -> Result<(), AllocError>
    ensures { OnOk result (string_bytes out.new ≡ string_bytes out.old ++ ends_text number side.now effects.now) }
{
    let items = effects.as_slice();
    for effect in items {
        append_effect(out, number, side, effect)?;
    }
    Ok(())
}

/// Puts the line of an effect behind a text, if it hands a get a reply with a sample or ends a get. Others have none.
fn append_effect(
    out: &mut String,
    number: u64,
    side: &str,
    effect: &Effect,
) -> Result<(), AllocError>
    ensures { OnOk result (string_bytes out.new ≡ string_bytes out.old ++ effect_text number side.now effect.now) }
{
    match effect {
        Effect::Hand(item) => append_item(out, number, side, item),
        Effect::End { kind, id } => append_ended(out, number, side, *kind, *id),
        _ => Ok(()),
    }
}

/// The line of a reply that is handed over. Samples and queries have none.
fn append_item(out: &mut String, number: u64, side: &str, item: &HandOver) -> Result<(), AllocError>
    ensures { OnOk result (string_bytes out.new ≡ string_bytes out.old ++ item_text number side.now item.now) }
{
    match item {
        HandOver::Reply { kind, id, reply } => {
            append_replied(out, number, side, *kind, *id, reply.get())
        }
        _ => Ok(()),
    }
}

/// The line of a reply for a get. Replies for a get of liveliness tokens have none.
fn append_replied(
    out: &mut String,
    number: u64,
    side: &str,
    kind: Kind,
    id: u32,
    reply: &Reply,
) -> Result<(), AllocError>
    ensures { OnOk result (string_bytes out.new ≡ string_bytes out.old ++ replied_text number side.now kind id reply.now) }
{
    match kind {
        Kind::Get => append_got(out, number, side, id, reply),
        _ => Ok(()),
    }
}

/// The line of a reply that has a sample. An error has none.
fn append_got(
    out: &mut String,
    number: u64,
    side: &str,
    id: u32,
    reply: &Reply,
) -> Result<(), AllocError>
    ensures { OnOk result (string_bytes out.new ≡ string_bytes out.old ++ got_text number side.now id reply.now.result) }
{
    match reply.result() {
        Ok(sample) => append_sample(out, number, side, id, sample),
        Err(_) => Ok(()),
    }
}

/// Puts the line of a sample that a get is handed behind a text.
#[tactic(auto, using(crate::proofs::Joining::joining))]
fn append_sample(
    out: &mut String,
    number: u64,
    side: &str,
    id: u32,
    sample: &Sample,
) -> Result<(), AllocError>
    ensures { OnOk result (string_bytes out.new ≡ string_bytes out.old ++ got_text number side.now id (Ok sample.now)) }
{
    let key = sample.key_expr().as_str();
    write!(out, "{number}\t{side}\tgot\t{id}\t{key}")?;
    append_entry(
        out,
        sample.kind(),
        sample.payload(),
        sample.timestamp().copied(),
    )
}

/// The line of a get that ends. An end of anything else has none.
fn append_ended(
    out: &mut String,
    number: u64,
    side: &str,
    kind: Kind,
    id: u32,
) -> Result<(), AllocError>
    ensures { OnOk result (string_bytes out.new ≡ string_bytes out.old ++ ended_text number side.now kind id) }
{
    match kind {
        Kind::Get => writeln!(out, "{number}\t{side}\tend\t{id}"),
        _ => Ok(()),
    }
}
