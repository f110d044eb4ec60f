//! The fields of parts, each put behind a text and behind a tab.

ghost use Rattle.std.specs.Prelude.{◌≡◌, ◌==◌, ◌∷◌, ◌++◌, OnOk, decimal, encode_utf8_all, option_and_then};
ghost use Rattle.std.specs.String.{string_bytes};
ghost use Rattle.zs_printing.specs.Words.{bytes_text, wire_text};
ghost use Rattle.zs_printing.specs.Pieces.{tabs, field_if, encoding_field};
ghost use Rattle.zs_event_lines.specs.Shown.{unless, key_text, suffix_text, selector_text, question_text, is_congestion, body_fields, priority_field, congestion_field, express_field, qos_fields, quality_fields, reply_quality_fields};
ghost use Rattle.zs_parts.specs.Options.{named_encoding};
ghost use Rattle.zs_parts.specs.Parts.{unnamed};
ghost use Rattle.zs_event_lines.specs.Lines.{told_as};
ghost use Rattle.zs_event_lines.specs.Slots.{slot_text};
ghost use Rattle.zs_event_lines.specs.Views.{slot_of};

use crate::optional::{append_encoding, append_option};
use crate::shown::Shown;
use crate::words::{background_word, history_word, is_congestion, locality_word, parent_word};
use std::alloc::AllocError;
use zs_events::{KeyArg, PublicationQuality, PushBody, ReplyQuality};
use zs_sample::{CongestionControl, QoSType, SampleKind, Text, ZBytes};
use zs_script::append_bytes;
use zs_script::words::{complete_word, congestion_word, flag_digit};
use zs_wire::{Body, Mapping, WireExpr};

/// Puts the fields of a part behind a text.
#[tactic(auto, unfolding(crate::specs::Slots::slot_text, crate::specs::Shown::shown, zs_printing::specs::Pieces::piece_text))]
pub(crate) fn append_shown(out: &mut String, shown: Shown<'_>) -> Result<(), AllocError>
    ensures { OnOk result (string_bytes out.new ≡ string_bytes out.old ++ slot_text (slot_of shown.entry)) }
{
    match shown {
        Shown::Said(text) => append_field(out, text),
        Shown::Number(number) => append_named(out, "", u64::from(number)),
        Shown::KeyNumber(number) => append_named(out, "", u64::from(number)),
        Shown::Moment(time) => append_named(out, "", time),
        Shown::Locality(locality) => append_field(out, locality_word(locality)),
        Shown::Background(kind) => append_field(out, background_word(kind)),
        Shown::Parent(kind) => append_field(out, parent_word(kind)),
        Shown::Complete(flag) => append_field(out, complete_word(flag)),
        Shown::History(flag) => append_field(out, history_word(flag)),
        Shown::Key(key) => append_key(out, key),
        Shown::Selector(key, text) => append_selector(out, key, text),
        Shown::Wire(wire) => append_wire(out, wire),
        Shown::Payload(bytes) => append_payload(out, bytes),
        Shown::Update(body) => append_update(out, body),
        Shown::OwnUpdate(body) => append_own_update(out, body),
        Shown::Body(body) => append_body(out, body),
        Shown::QoS(_, absent, qos) => append_qos(out, absent, qos),
        Shown::Reliable(flag) => append_unless(out, flag, "rel=", flag_digit(flag)),
        Shown::Quality(quality) => append_quality(out, quality),
        Shown::ReplyQuality(quality) => append_reply_quality(out, quality),
        _ => append_option(out, shown),
    }
}

/// A tab and a text.
#[tactic(auto, using(crate::proofs::Joining::joining))]
fn append_field(out: &mut String, text: &str) -> Result<(), AllocError>
    ensures { OnOk result (string_bytes out.new ≡ string_bytes out.old ++ (9 ∷ text.now)) }
{
    out.push('\t')?;
    out.push_str(text)
}

/// A name and a number.
pub(crate) fn append_named(out: &mut String, name: &str, number: u64) -> Result<(), AllocError>
    ensures { OnOk result (string_bytes out.new ≡ string_bytes out.old ++ (9 ∷ (name.now ++ decimal number))) }
{
    write!(out, "\t{name}{number}")
}

/// An option whose value is a word, unless it says what its absence says.
#[tactic(auto, using(crate::proofs::Joining::joining))]
pub(crate) fn append_unless(
    out: &mut String,
    absent: bool,
    name: &str,
    text: &str,
) -> Result<(), AllocError>
    ensures { OnOk result (string_bytes out.new ≡ string_bytes out.old ++ tabs (unless absent (name.now ++ text.now))) }
{
    if absent {
        return Ok(());
    }
    write!(out, "\t{name}{text}")
}

/// A key: its text, or its declared number and what stands behind that.
#[tactic(auto, using(crate::proofs::Joining::joining))]
fn append_key(out: &mut String, key: &KeyArg) -> Result<(), AllocError>
    ensures { OnOk result (string_bytes out.new ≡ string_bytes out.old ++ (9 ∷ key_text key.now)) }
{
    match key {
        KeyArg::Text(text) => append_field(out, text.as_str()),
        KeyArg::Number { number, suffix } => append_numbered(out, *number, suffix),
        KeyArg::Declared { text, .. } => append_field(out, text.as_str()),
    }
}

/// A declared key's number, and what stands behind that key.
#[tactic(auto, using(crate::proofs::Joining::joining))]
fn append_numbered(out: &mut String, number: u16, suffix: &Text) -> Result<(), AllocError>
    ensures { OnOk result (string_bytes out.new
        ≡ string_bytes out.old ++ (9 ∷ 35 ∷ (decimal number ++ suffix_text (encode_utf8_all suffix.now)))) }
{
    write!(out, "\t#{number}")?;
    append_suffix(out, suffix.as_str())
}

/// A suffix behind a colon, if there is one.
#[tactic(auto, using(crate::proofs::Joining::joining))]
fn append_suffix(out: &mut String, text: &str) -> Result<(), AllocError>
    ensures { OnOk result (string_bytes out.new ≡ string_bytes out.old ++ suffix_text text.now) }
{
    if text.is_empty() {
        return Ok(());
    }
    write!(out, ":{text}")
}

/// A key, and behind it the parameters that a get hands to the queryables.
#[tactic(auto, using(crate::proofs::Joining::joining))]
fn append_selector(out: &mut String, key: &KeyArg, text: &Text) -> Result<(), AllocError>
    ensures { OnOk result (string_bytes out.new ≡ string_bytes out.old ++ (9 ∷ selector_text key.now text.now)) }
{
    append_key(out, key)?;
    append_question(out, text.as_str())
}

/// A question mark and parameters, if there are any.
#[tactic(auto, using(crate::proofs::Joining::joining))]
fn append_question(out: &mut String, text: &str) -> Result<(), AllocError>
    ensures { OnOk result (string_bytes out.new ≡ string_bytes out.old ++ question_text text.now) }
{
    if text.is_empty() {
        return Ok(());
    }
    write!(out, "?{text}")
}

/// A wire expression: `s` or `r` for whether its sender or its receiver declared the number, the number, a colon, and
/// the suffix.
pub(crate) fn append_wire(out: &mut String, wire: &WireExpr) -> Result<(), AllocError>
    ensures { OnOk result (string_bytes out.new ≡ string_bytes out.old ++ (9 ∷ wire_text wire.now)) }
{
    let scope = wire.scope;
    let suffix = wire.suffix.as_str();
    match wire.mapping {
        Mapping::Sender => write!(out, "\ts{scope}:{suffix}"),
        Mapping::Receiver => write!(out, "\tr{scope}:{suffix}"),
    }
}

/// A payload: `x`, and two hexadecimal digits for each byte.
#[tactic(auto, using(crate::proofs::Joining::joining))]
fn append_payload(out: &mut String, bytes: &ZBytes) -> Result<(), AllocError>
    ensures { OnOk result (string_bytes out.new ≡ string_bytes out.old ++ (9 ∷ bytes_text bytes.now)) }
{
    out.push('\t')?;
    append_bytes(out, bytes)
}

/// What a publisher puts: the payload, and the encoding wherever one is named. Deletions have no field.
#[tactic(auto, using(crate::proofs::Joining::joining))]
fn append_update(out: &mut String, body: &PushBody) -> Result<(), AllocError>
    ensures { OnOk result (string_bytes out.new ≡ string_bytes out.old ++ tabs (body_fields body.now)) }
{
    let PushBody::Put { payload, encoding } = body else {
        return Ok(());
    };
    append_payload(out, payload)?;
    append_encoding_if(out, encoding)
}

/// The same where no publisher names an encoding: the default one has no field, as its absence says it.
#[tactic(auto, using(crate::proofs::Joining::joining))]
fn append_own_update(out: &mut String, body: &PushBody) -> Result<(), AllocError>
    ensures { OnOk result (string_bytes out.new ≡ string_bytes out.old ++ tabs (body_fields (unnamed body.now))) }
{
    let PushBody::Put { payload, encoding } = body else {
        return Ok(());
    };
    append_payload(out, payload)?;
    append_other_encoding(out, encoding)
}

/// An encoding that is named, unless it is the default one.
fn append_other_encoding(out: &mut String, text: &Option<Text>) -> Result<(), AllocError>
    ensures { OnOk result (string_bytes out.new
        ≡ string_bytes out.old ++ tabs (field_if encoding_field (option_and_then named_encoding text.now))) }
{
    match text {
        Some(text) => append_encoding(out, text),
        None => Ok(()),
    }
}

/// An encoding that is named.
#[tactic(auto, using(crate::proofs::Joining::joining))]
fn append_encoding_if(out: &mut String, text: &Option<Text>) -> Result<(), AllocError>
    ensures { OnOk result (string_bytes out.new ≡ string_bytes out.old ++ tabs (field_if encoding_field text.now)) }
{
    let Some(text) = text else {
        return Ok(());
    };
    let text = text.as_str();
    write!(out, "\tenc={text}")
}

/// What a message puts: the payload, and the encoding unless it is the default one. Deletions have no field.
#[tactic(auto, using(crate::proofs::Joining::joining))]
fn append_body(out: &mut String, body: &Body) -> Result<(), AllocError>
    ensures { OnOk result (string_bytes out.new
        ≡ string_bytes out.old ++ tabs (body_fields (told_as body.now.kind body.now))) }
{
    match body.kind {
        SampleKind::Put => append_put(out, body),
        SampleKind::Delete => Ok(()),
    }
}

/// A payload and its encoding.
#[tactic(auto, using(crate::proofs::Joining::joining))]
fn append_put(out: &mut String, body: &Body) -> Result<(), AllocError>
    ensures { OnOk result (string_bytes out.new
        ≡ string_bytes out.old
        ++ tabs (bytes_text body.now.payload ∷ field_if encoding_field (named_encoding body.now.encoding))) }
{
    append_payload(out, &body.payload)?;
    append_encoding(out, &body.encoding)
}

/// Quality of service: three options. `absent` is what happens where a queue is full and nothing is said of it.
#[tactic(auto, using(crate::proofs::Joining::joining))]
fn append_qos(out: &mut String, absent: CongestionControl, qos: QoSType) -> Result<(), AllocError>
    ensures { OnOk result (string_bytes out.new ≡ string_bytes out.old ++ tabs (qos_fields absent qos)) }
{
    append_priority(out, qos.priority)?;
    append_congestion(out, absent, qos.congestion)?;
    append_unless(out, !qos.express, "express=", flag_digit(qos.express))
}

/// A priority, unless it is 5, the one of whatever names none.
#[tactic(auto, using(crate::proofs::Joining::joining))]
fn append_priority(out: &mut String, priority: u8) -> Result<(), AllocError>
    ensures { OnOk result (string_bytes out.new
        ≡ string_bytes out.old ++ tabs (unless (priority == 5) (priority_field priority))) }
{
    if priority == 5 {
        return Ok(());
    }
    write!(out, "\tprio={priority}")
}

/// What happens where a queue is full, unless its absence says it.
fn append_congestion(
    out: &mut String,
    absent: CongestionControl,
    congestion: CongestionControl,
) -> Result<(), AllocError>
    ensures { OnOk result (string_bytes out.new
        ≡ string_bytes out.old ++ tabs (unless (is_congestion absent congestion) (congestion_field congestion))) }
{
    append_unless(
        out,
        is_congestion(absent, congestion),
        "cc=",
        congestion_word(congestion),
    )
}

/// Quality of service of a publication: three options, and whether it is reliable, which is said only where it isn't.
#[tactic(auto, using(crate::proofs::Joining::joining))]
fn append_quality(out: &mut String, quality: PublicationQuality) -> Result<(), AllocError>
    ensures { OnOk result (string_bytes out.new ≡ string_bytes out.old ++ tabs (quality_fields quality)) }
{
    append_qos(out, CongestionControl::Drop, quality.qos)?;
    append_unless(out, quality.reliable, "rel=", flag_digit(quality.reliable))
}

/// What a reply says of its quality of service.
#[tactic(auto, using(crate::proofs::Joining::joining))]
fn append_reply_quality(out: &mut String, quality: ReplyQuality) -> Result<(), AllocError>
    ensures { OnOk result (string_bytes out.new ≡ string_bytes out.old ++ tabs (reply_quality_fields quality)) }
{
    append_priority_if(out, quality.priority)?;
    append_congestion_if(out, quality.congestion)?;
    append_express_if(out, quality.express)
}

/// The priority of a reply, if it has its own. Its absence is that of the query, so that 5 is said too.
#[tactic(auto, using(crate::proofs::Joining::joining))]
fn append_priority_if(out: &mut String, priority: Option<u8>) -> Result<(), AllocError>
    ensures { OnOk result (string_bytes out.new ≡ string_bytes out.old ++ tabs (field_if priority_field priority)) }
{
    let Some(priority) = priority else {
        return Ok(());
    };
    write!(out, "\tprio={priority}")
}

/// What happens to a reply where a queue is full, if that is its own.
#[tactic(auto, using(crate::proofs::Joining::joining))]
fn append_congestion_if(
    out: &mut String,
    congestion: Option<CongestionControl>,
) -> Result<(), AllocError>
    ensures { OnOk result (string_bytes out.new ≡ string_bytes out.old ++ tabs (field_if congestion_field congestion)) }
{
    let Some(congestion) = congestion else {
        return Ok(());
    };
    append_unless(out, false, "cc=", congestion_word(congestion))
}

/// Whether a reply goes out at once, if that is its own: a `false` is said too.
#[tactic(auto, using(crate::proofs::Joining::joining))]
fn append_express_if(out: &mut String, express: Option<bool>) -> Result<(), AllocError>
    ensures { OnOk result (string_bytes out.new ≡ string_bytes out.old ++ tabs (field_if express_field express)) }
{
    let Some(express) = express else {
        return Ok(());
    };
    append_unless(out, false, "express=", flag_digit(express))
}
