//! The pieces that printed lines are made of, each put behind a text.

ghost use Rattle.std.specs.Prelude.{◌≡◌, ◌++◌, OnOk};
ghost use Rattle.std.specs.Option.{option_copied};
ghost use Rattle.std.specs.String.{string_bytes};
ghost use Rattle.zs_printing.specs.Words.{wire_text, entity_text};
ghost use Rattle.zs_printing.specs.Pieces.{piece_text, word, number, wire, wire_if, payload, parameters, target, consolidation, timeout, value, payload_if, encoding, encoding_if, timestamp, qos, reliable, source, attachment, responder, interest};

use crate::digits::{append_bytes, append_hex};
use crate::words::{congestion_word, consolidation_word, flag_digit, target_word};
use std::alloc::AllocError;
use zs_sample::{
    ConsolidationMode, Encoding, EntityGlobalId, QoSType, QueryTarget, SourceInfo, Text, Timestamp,
    ZBytes,
};
use zs_wire::{Mapping, Value, WireExpr};

/// Puts a word behind a text, behind a tab.
#[tactic(auto, using(crate::proofs::Joining::joining), unfolding(crate::specs::Pieces::written, crate::specs::Pieces::piece_text))]
pub fn append_word(out: &mut String, text: &str) -> Result<(), AllocError>
    ensures { OnOk result (string_bytes out.new ≡ string_bytes out.old ++ piece_text (word text.now)) }
{
    out.push('\t')?;
    out.push_str(text)
}

/// Puts a number behind a text, as `append_word` does with a word.
#[tactic(auto, unfolding(crate::specs::Pieces::written, crate::specs::Pieces::piece_text))]
pub fn append_number(out: &mut String, count: u32) -> Result<(), AllocError>
    ensures { OnOk result (string_bytes out.new ≡ string_bytes out.old ++ piece_text (number count)) }
{
    write!(out, "\t{count}")
}

/// A wire expression, with no tab before it.
fn append_wire_text(out: &mut String, key: &WireExpr) -> Result<(), AllocError>
    ensures { OnOk result (string_bytes out.new ≡ string_bytes out.old ++ wire_text key.now) }
{
    let scope = key.scope;
    let suffix = key.suffix.as_str();
    match key.mapping {
        Mapping::Sender => write!(out, "s{scope}:{suffix}"),
        Mapping::Receiver => write!(out, "r{scope}:{suffix}"),
    }
}

/// Puts a wire expression behind a text.
#[tactic(auto, using(crate::proofs::Joining::joining), unfolding(crate::specs::Pieces::written, crate::specs::Pieces::piece_text))]
pub fn append_wire(out: &mut String, key: &WireExpr) -> Result<(), AllocError>
    ensures { OnOk result (string_bytes out.new ≡ string_bytes out.old ++ piece_text (wire key.now)) }
{
    out.push('\t')?;
    append_wire_text(out, key)
}

/// The same of one that may be missing: then nothing is put there.
#[tactic(auto, using(crate::proofs::Joining::joining), unfolding(crate::specs::Pieces::written, crate::specs::Pieces::piece_text))]
pub fn append_wire_if(out: &mut String, key: Option<&WireExpr>) -> Result<(), AllocError>
    ensures { OnOk result (string_bytes out.new ≡ string_bytes out.old ++ piece_text (wire_if (option_copied key.entry))) }
{
    let Some(key) = key else {
        return Ok(());
    };
    out.push('\t')?;
    append_wire_text(out, key)
}

/// Puts bytes behind a text.
#[tactic(auto, using(crate::proofs::Joining::joining), unfolding(crate::specs::Pieces::written, crate::specs::Pieces::piece_text))]
pub fn append_payload(out: &mut String, bytes: &ZBytes) -> Result<(), AllocError>
    ensures { OnOk result (string_bytes out.new ≡ string_bytes out.old ++ piece_text (payload bytes.now)) }
{
    out.push('\t')?;
    append_bytes(out, bytes)
}

/// Puts the option `params` behind a text, if it is not empty.
#[tactic(auto, unfolding(crate::specs::Pieces::written, crate::specs::Pieces::piece_text))]
pub fn append_parameters(out: &mut String, text: &str) -> Result<(), AllocError>
    ensures { OnOk result (string_bytes out.new ≡ string_bytes out.old ++ piece_text (parameters text.now)) }
{
    if text.is_empty() {
        return Ok(());
    }
    write!(out, "\tparams={text}")
}

/// Puts the option `target` behind a text: which queryables a request is for.
#[tactic(auto, unfolding(crate::specs::Pieces::written, crate::specs::Pieces::piece_text))]
pub(crate) fn append_target(out: &mut String, whom: QueryTarget) -> Result<(), AllocError>
    ensures { OnOk result (string_bytes out.new ≡ string_bytes out.old ++ piece_text (target whom)) }
{
    let text = target_word(whom);
    write!(out, "\ttarget={text}")
}

/// Puts the option `cons` behind a text: how the replies of a request are consolidated.
#[tactic(auto, unfolding(crate::specs::Pieces::written, crate::specs::Pieces::piece_text))]
pub(crate) fn append_consolidation(
    out: &mut String,
    mode: ConsolidationMode,
) -> Result<(), AllocError>
    ensures { OnOk result (string_bytes out.new ≡ string_bytes out.old ++ piece_text (consolidation mode)) }
{
    let text = consolidation_word(mode);
    write!(out, "\tcons={text}")
}

/// Puts the option `timeout` behind a text, in milliseconds.
#[tactic(auto, unfolding(crate::specs::Pieces::written, crate::specs::Pieces::piece_text))]
pub(crate) fn append_timeout(out: &mut String, time: u64) -> Result<(), AllocError>
    ensures { OnOk result (string_bytes out.new ≡ string_bytes out.old ++ piece_text (timeout time)) }
{
    write!(out, "\ttimeout={time}")
}

/// Puts the options `payload` and `enc` behind a text, if there is a value.
#[tactic(auto, using(crate::proofs::Joining::joining), unfolding(crate::specs::Pieces::written, crate::specs::Pieces::piece_text))]
pub(crate) fn append_value(out: &mut String, given: &Option<Value>) -> Result<(), AllocError>
    ensures { OnOk result (string_bytes out.new ≡ string_bytes out.old ++ piece_text (value given.now)) }
{
    let Some(given) = given else {
        return Ok(());
    };
    write!(out, "\tpayload=")?;
    append_bytes(out, &given.payload)?;
    let text = given.encoding.as_str();
    write!(out, "\tenc={text}")
}

/// Puts the option `enc` behind a text, also where the encoding is empty.
#[tactic(auto, using(crate::proofs::Joining::joining), unfolding(crate::specs::Pieces::written, crate::specs::Pieces::piece_text))]
pub(crate) fn append_encoding(out: &mut String, text: &Text) -> Result<(), AllocError>
    ensures { OnOk result (string_bytes out.new ≡ string_bytes out.old ++ piece_text (encoding text.now)) }
{
    out.push_str("\tenc=")?;
    out.push_str(text.as_str())
}

/// The payload of a value, if there is one.
#[tactic(auto, using(crate::proofs::Joining::joining), unfolding(crate::specs::Pieces::written, crate::specs::Pieces::piece_text))]
pub(crate) fn append_payload_if(out: &mut String, bytes: Option<&ZBytes>) -> Result<(), AllocError>
    ensures { OnOk result (string_bytes out.new ≡ string_bytes out.old ++ piece_text (payload_if (option_copied bytes.entry))) }
{
    let Some(bytes) = bytes else {
        return Ok(());
    };
    write!(out, "\tpayload=")?;
    append_bytes(out, bytes)
}

/// The encoding of a value, if there is one.
#[tactic(auto, using(crate::proofs::Joining::joining), unfolding(crate::specs::Pieces::written, crate::specs::Pieces::piece_text))]
pub(crate) fn append_encoding_if(
    out: &mut String,
    name: Option<&Encoding>,
) -> Result<(), AllocError>
    ensures { OnOk result (string_bytes out.new ≡ string_bytes out.old ++ piece_text (encoding_if (option_copied name.entry))) }
{
    let Some(name) = name else {
        return Ok(());
    };
    out.push_str("\tenc=")?;
    out.push_str(name.as_str())
}

/// The encoding of a sample, or of an error.
#[tactic(auto, using(crate::proofs::Joining::joining), unfolding(crate::specs::Pieces::written, crate::specs::Pieces::piece_text))]
pub(crate) fn append_sample_encoding(out: &mut String, name: &Encoding) -> Result<(), AllocError>
    ensures { OnOk result (string_bytes out.new ≡ string_bytes out.old ++ piece_text (encoding name.now)) }
{
    out.push_str("\tenc=")?;
    out.push_str(name.as_str())
}

/// Puts the option `ts` behind a text, if there is a timestamp.
#[tactic(auto, using(crate::proofs::Joining::joining), unfolding(crate::specs::Pieces::written, crate::specs::Pieces::piece_text))]
pub fn append_timestamp(out: &mut String, time: Option<Timestamp>) -> Result<(), AllocError>
    ensures { OnOk result (string_bytes out.new ≡ string_bytes out.old ++ piece_text (timestamp time)) }
{
    let Some(Timestamp { time, id }) = time else {
        return Ok(());
    };
    write!(out, "\tts={time}:")?;
    append_hex(out, id)
}

/// Puts the options `prio`, `cc` and `express` behind a text, also where they are the defaults.
#[tactic(auto, using(crate::proofs::Joining::joining), unfolding(crate::specs::Pieces::written, crate::specs::Pieces::piece_text))]
pub(crate) fn append_qos(out: &mut String, quality: QoSType) -> Result<(), AllocError>
    ensures { OnOk result (string_bytes out.new ≡ string_bytes out.old ++ piece_text (qos quality)) }
{
    let priority = quality.priority;
    write!(out, "\tprio={priority}\tcc=")?;
    out.push_str(congestion_word(quality.congestion))?;
    out.push_str("\texpress=")?;
    out.push_str(flag_digit(quality.express))
}

/// Puts the option `rel` behind a text: `1` for reliable, and `0` for best effort.
#[tactic(auto, using(crate::proofs::Joining::joining), unfolding(crate::specs::Pieces::written, crate::specs::Pieces::piece_text))]
pub(crate) fn append_reliable(out: &mut String, flag: bool) -> Result<(), AllocError>
    ensures { OnOk result (string_bytes out.new ≡ string_bytes out.old ++ piece_text (reliable flag)) }
{
    out.push_str("\trel=")?;
    out.push_str(flag_digit(flag))
}

/// An entity, with nothing before it.
#[tactic(auto, using(crate::proofs::Joining::joining))]
fn append_entity(out: &mut String, id: EntityGlobalId) -> Result<(), AllocError>
    ensures { OnOk result (string_bytes out.new ≡ string_bytes out.old ++ entity_text id) }
{
    append_hex(out, id.zid)?;
    let eid = id.eid;
    write!(out, ":{eid}")
}

/// Puts the option `src` behind a text, if it is known where data comes from.
#[tactic(auto, using(crate::proofs::Joining::joining), unfolding(crate::specs::Pieces::written, crate::specs::Pieces::piece_text))]
pub fn append_source(out: &mut String, origin: Option<SourceInfo>) -> Result<(), AllocError>
    ensures { OnOk result (string_bytes out.new ≡ string_bytes out.old ++ piece_text (source origin)) }
{
    let Some(
        SourceInfo {
            source_id,
            source_sn,
        },
    ) = origin
    else {
        return Ok(());
    };
    write!(out, "\tsrc=")?;
    append_entity(out, source_id)?;
    write!(out, ":{source_sn}")
}

/// Puts the option `att` behind a text, if there are bytes.
#[tactic(auto, using(crate::proofs::Joining::joining), unfolding(crate::specs::Pieces::written, crate::specs::Pieces::piece_text))]
pub fn append_attachment(out: &mut String, bytes: Option<&ZBytes>) -> Result<(), AllocError>
    ensures { OnOk result (string_bytes out.new ≡ string_bytes out.old ++ piece_text (attachment (option_copied bytes.entry))) }
{
    let Some(bytes) = bytes else {
        return Ok(());
    };
    write!(out, "\tatt=")?;
    append_bytes(out, bytes)
}

/// Puts the option `by` behind a text, if it is known who answers.
#[tactic(auto, using(crate::proofs::Joining::joining), unfolding(crate::specs::Pieces::written, crate::specs::Pieces::piece_text))]
pub fn append_responder(out: &mut String, id: Option<EntityGlobalId>) -> Result<(), AllocError>
    ensures { OnOk result (string_bytes out.new ≡ string_bytes out.old ++ piece_text (responder id)) }
{
    let Some(id) = id else {
        return Ok(());
    };
    write!(out, "\tby=")?;
    append_entity(out, id)
}

/// Puts the option `interest` behind a text, if there is a number.
#[tactic(auto, unfolding(crate::specs::Pieces::written, crate::specs::Pieces::piece_text))]
pub fn append_interest(out: &mut String, id: Option<u32>) -> Result<(), AllocError>
    ensures { OnOk result (string_bytes out.new ≡ string_bytes out.old ++ piece_text (interest id)) }
{
    let Some(id) = id else {
        return Ok(());
    };
    write!(out, "\tinterest={id}")
}
