//! A sample that is handed over once more is printed from the text that it had.

ghost use Rattle.std.specs.Prelude.{◌≡◌, ◌++◌, IfOk, OnOk};
ghost use Rattle.std.specs.Bool.{OnTrue};
ghost use Rattle.std.specs.Option.{option_copied};
ghost use Rattle.std.specs.String.{string_bytes};
ghost use Rattle.zs_printing.specs.Pieces.{piece_text, pieces_text, payload, encoding, attachment};
ghost use Rattle.zs_printing.specs.Printing.{sample_head, sample_options, sample_pieces};

use crate::printing::{append_sample, sample_qos};
use std::alloc::{AllocError, Global};
use zs_sample::{Encoding, Sample, SourceInfo, Timestamp, ZBytes};

/// A sample with its printed text.
#[derive(Drop)]
pub(crate) struct Printed<'a> {
    sample: &'a Sample,
    text: String,
    ghost is_text: { string_bytes text ≡ pieces_text (sample_pieces sample.now) },
}

impl<'a> Printed<'a> {
    /// Prints a sample into a text of its own. An error is want of memory alone.
    fn of(alloc: Global, sample: &'a Sample) -> Result<Printed<'a>, AllocError>
        ensures { IfOk result (λ printed. printed.sample.now ≡ sample.now) }
    {
        let mut text = String::new(alloc);
        append_sample(&mut text, sample)?;
        Ok(Printed { sample, text })
    }
}

/// The sample that was printed last. Its text is kept from the second time on, so that a sample which is handed to one
/// subscriber costs no memory.
#[derive(Drop)]
pub(crate) enum Last<'a> {
    Nothing,
    Once(&'a Sample),
    Again(Printed<'a>),
}

/// Puts a sample behind a text.
pub(crate) fn append_handed<'a>(
    out: &mut String,
    sample: &'a Sample,
    last: &mut Last<'a>,
) -> Result<(), AllocError>
    ensures { OnOk result (string_bytes out.new ≡ string_bytes out.old ++ pieces_text (sample_pieces sample.now)) }
{
    match last {
        Last::Again(printed) if is_like(printed.sample, sample) => {
            out.push_str(printed.text.as_str())
        }
        Last::Once(before) if is_like(before, sample) => append_again(out, sample, last),
        _ => {
            *last = Last::Once(sample);
            append_sample(out, sample)
        }
    }
}

/// Puts a sample behind a text, and keeps its text.
fn append_again<'a>(
    out: &mut String,
    sample: &'a Sample,
    last: &mut Last<'a>,
) -> Result<(), AllocError>
    ensures { OnOk result (string_bytes out.new ≡ string_bytes out.old ++ pieces_text (sample_pieces sample.now)) }
{
    let printed = Printed::of(*out.allocator(), sample)?;
    out.push_str(printed.text.as_str())?;
    *last = Last::Again(printed);
    Ok(())
}

/// Whether two samples are printed alike.
#[tactic(auto, using(crate::proofs::Joining::joining))]
fn is_like(left: &Sample, right: &Sample) -> bool
    ensures { OnTrue result (pieces_text (sample_pieces left.now) ≡ pieces_text (sample_pieces right.now)) }
{
    has_head_of(left, right) && has_options_of(left, right)
}

/// Whether two samples have one kind, key, payload and encoding.
fn has_head_of(left: &Sample, right: &Sample) -> bool
    ensures { OnTrue result (pieces_text (sample_head left.now) ≡ pieces_text (sample_head right.now)) }
{
    left.kind() == right.kind()
        && left.key_expr().as_str() == right.key_expr().as_str()
        && is_payload(left.payload(), right.payload())
        && is_encoding(left.encoding(), right.encoding())
}

/// Whether two samples have one timestamp, quality of service, reliability, source and attachment.
fn has_options_of(left: &Sample, right: &Sample) -> bool
    ensures { OnTrue result (pieces_text (sample_options left.now) ≡ pieces_text (sample_options right.now)) }
{
    is_time(left.timestamp().copied(), right.timestamp().copied())
        && sample_qos(left) == sample_qos(right)
        && left.reliability() == right.reliability()
        && is_source(left.source_info().copied(), right.source_info().copied())
        && is_attachment(left.attachment(), right.attachment())
}

/// Whether two payloads have the same bytes.
#[tactic(auto, unfolding(crate::specs::Pieces::written, crate::specs::Pieces::piece_text))]
fn is_payload(left: &ZBytes, right: &ZBytes) -> bool
    ensures { OnTrue result (piece_text (payload left.now) ≡ piece_text (payload right.now)) }
{
    left == right
}

/// Whether two encodings have the same text.
#[tactic(auto, unfolding(crate::specs::Pieces::written, crate::specs::Pieces::piece_text))]
fn is_encoding(left: &Encoding, right: &Encoding) -> bool
    ensures { OnTrue result (piece_text (encoding left.now) ≡ piece_text (encoding right.now)) }
{
    left.as_str() == right.as_str()
}

/// Whether both timestamps are the same, or both are missing.
fn is_time(left: Option<Timestamp>, right: Option<Timestamp>) -> bool
    ensures { OnTrue result (left ≡ right) }
{
    left == right
}

/// Whether both sources are the same, or both are missing.
fn is_source(left: Option<SourceInfo>, right: Option<SourceInfo>) -> bool
    ensures { OnTrue result (left ≡ right) }
{
    left == right
}

/// Whether both attachments have the same bytes, or both are missing.
#[tactic(auto, unfolding(crate::specs::Pieces::written, crate::specs::Pieces::piece_text))]
fn is_attachment(left: Option<&ZBytes>, right: Option<&ZBytes>) -> bool
    ensures { OnTrue result (piece_text (attachment (option_copied left.entry)) ≡ piece_text (attachment (option_copied right.entry))) }
{
    let Some(left) = left else {
        return right.is_none();
    };
    let Some(right) = right else {
        return false;
    };
    left == right
}
