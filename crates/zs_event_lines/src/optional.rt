//! The fields of options other than qualities of service, and of parts that may be left out: an option is put behind a
//! text only where its value is not what its absence says.

ghost use Rattle.std.specs.Prelude.{◌≡◌, ◌++◌, OnOk, true, codes, decimal, encode_utf8_all};
ghost use Rattle.std.specs.String.{string_bytes};
ghost use Rattle.zs_printing.specs.Words.{wire_text, target_word, consolidation_word};
ghost use Rattle.zs_printing.specs.Pieces.{tabs, field_if, parameter_fields, encoding_field};
ghost use Rattle.zs_parts.specs.Options.{named_encoding};
ghost use Rattle.zs_event_lines.specs.Shown.{unless, is_best, is_auto, query_value_fields, channel_text, is_print};
ghost use Rattle.zs_event_lines.specs.Slots.{slot_text};
ghost use Rattle.zs_event_lines.specs.Views.{slot_of, is_option};

use crate::fields::{append_named, append_unless, append_wire};
use crate::shown::Shown;
use crate::words::{is_auto, is_best};
use std::alloc::AllocError;
use zs_events::Chan;
use zs_parts::is_default;
use zs_sample::{ConsolidationMode, QueryTarget, Text};
use zs_script::append_bytes;
use zs_script::piece_printing::{
    append_attachment, append_interest, append_responder, append_source, append_timestamp,
};
use zs_script::words::{consolidation_word, target_word};
use zs_wire::{Value, WireExpr};

/// It is `append_shown` of an option other than quality of service, or of a field that may be left out.
#[tactic(auto, unfolding(crate::specs::Slots::slot_text, crate::specs::Shown::shown, zs_printing::specs::Pieces::piece_text))]
pub(crate) fn append_option(out: &mut String, shown: Shown<'_>) -> Result<(), AllocError>
    requires { is_option shown ≡ true }
    ensures { OnOk result (string_bytes out.new ≡ string_bytes out.old ++ slot_text (slot_of shown.entry)) }
{
    match shown {
        Shown::WireIf(wire) => append_wire_if(out, wire),
        Shown::Parameters(text) => append_parameters(out, text),
        Shown::Target(target) => append_target(out, target),
        Shown::Consolidation(mode) => append_consolidation(out, mode),
        Shown::Timeout(time) => append_moment_if(out, "timeout=", time),
        Shown::Value(value) => append_value(out, value),
        Shown::Encoding(text) => append_encoding(out, text),
        Shown::Timestamp(time) => append_timestamp(out, time),
        Shown::Source(source) => append_source(out, source),
        Shown::Attachment(bytes) => append_attachment(out, bytes.as_ref()),
        Shown::Responder(responder) => append_responder(out, responder),
        Shown::AnyKey(flag) => append_unless(out, !flag, "accept=any", ""),
        Shown::CancellationToken(id) => append_number_if(out, "token=", id),
        Shown::Interest(id) => append_interest(out, id),
        Shown::Channel(channel) => append_channel(out, "", channel),
        Shown::HandedTo(channel) => append_channel(out, "to=", channel),
        _ => unreachable!(),
    }
}

/// Whom a query reaches.
#[tactic(auto, using(crate::proofs::Joining::joining))]
fn append_target(out: &mut String, target: QueryTarget) -> Result<(), AllocError>
    ensures { OnOk result (string_bytes out.new
        ≡ string_bytes out.old ++ tabs (unless (is_best target) (codes "target=" ++ target_word target))) }
{
    append_unless(out, is_best(target), "target=", target_word(target))
}

/// Which replies of a query are kept.
#[tactic(auto, using(crate::proofs::Joining::joining))]
fn append_consolidation(out: &mut String, mode: ConsolidationMode) -> Result<(), AllocError>
    ensures { OnOk result (string_bytes out.new
        ≡ string_bytes out.old ++ tabs (unless (is_auto mode) (codes "cons=" ++ consolidation_word mode))) }
{
    append_unless(out, is_auto(mode), "cons=", consolidation_word(mode))
}

/// An option whose value is a number, if it is there.
#[tactic(auto, using(crate::proofs::Joining::joining))]
fn append_moment_if(out: &mut String, name: &str, time: Option<u64>) -> Result<(), AllocError>
    ensures { OnOk result (string_bytes out.new
        ≡ string_bytes out.old ++ tabs (field_if (λ n. name.now ++ decimal n) time)) }
{
    let Some(time) = time else {
        return Ok(());
    };
    append_named(out, name, time)
}

/// The same of an entity's number.
#[tactic(auto, using(crate::proofs::Joining::joining))]
fn append_number_if(out: &mut String, name: &str, id: Option<u32>) -> Result<(), AllocError>
    ensures { OnOk result (string_bytes out.new
        ≡ string_bytes out.old ++ tabs (field_if (λ n. name.now ++ decimal n) id)) }
{
    let Some(id) = id else {
        return Ok(());
    };
    append_named(out, name, u64::from(id))
}

/// A wire expression, if there is one.
#[tactic(auto, using(crate::proofs::Joining::joining))]
fn append_wire_if(out: &mut String, wire: &Option<WireExpr>) -> Result<(), AllocError>
    ensures { OnOk result (string_bytes out.new ≡ string_bytes out.old ++ tabs (field_if wire_text wire.now)) }
{
    let Some(wire) = wire else {
        return Ok(());
    };
    append_wire(out, wire)
}

/// Parameters, if there are any.
#[tactic(auto, using(crate::proofs::Joining::joining))]
fn append_parameters(out: &mut String, text: &Text) -> Result<(), AllocError>
    ensures { OnOk result (string_bytes out.new
        ≡ string_bytes out.old ++ tabs (parameter_fields (encode_utf8_all text.now))) }
{
    append_parameter_text(out, text.as_str())
}

/// The same of their UTF-8 bytes.
fn append_parameter_text(out: &mut String, text: &str) -> Result<(), AllocError>
    ensures { OnOk result (string_bytes out.new ≡ string_bytes out.old ++ tabs (parameter_fields text.now)) }
{
    if text.is_empty() {
        return Ok(());
    }
    write!(out, "\tparams={text}")
}

/// A value: its payload, and its encoding.
#[tactic(auto, using(crate::proofs::Joining::joining))]
fn append_value(out: &mut String, value: &Option<Value>) -> Result<(), AllocError>
    ensures { OnOk result (string_bytes out.new ≡ string_bytes out.old ++ tabs (query_value_fields value.now)) }
{
    let Some(value) = value else {
        return Ok(());
    };
    write!(out, "\tpayload=")?;
    append_bytes(out, &value.payload)?;
    append_encoding(out, &value.encoding)
}

/// An encoding, unless it is the default one.
#[tactic(auto, using(crate::proofs::Joining::joining))]
pub(crate) fn append_encoding(out: &mut String, text: &Text) -> Result<(), AllocError>
    ensures { OnOk result (string_bytes out.new
        ≡ string_bytes out.old ++ tabs (field_if encoding_field (named_encoding text.now))) }
{
    if is_default(text) {
        return Ok(());
    }
    let text = text.as_str();
    write!(out, "\tenc={text}")
}

/// Where items go, behind a name.
#[tactic(auto, using(crate::proofs::Joining::joining))]
fn append_channel(out: &mut String, name: &str, channel: Chan) -> Result<(), AllocError>
    ensures { OnOk result (string_bytes out.new
        ≡ string_bytes out.old ++ tabs (unless (is_print channel) (name.now ++ channel_text channel))) }
{
    match channel {
        Chan::Print => Ok(()),
        Chan::Fifo(size) => write!(out, "\t{name}fifo:{size}"),
        Chan::Ring(size) => write!(out, "\t{name}ring:{size}"),
    }
}
