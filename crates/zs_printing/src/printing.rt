//! The printed text of a turn.

ghost use Rattle.std.specs.Prelude.{◌≡◌, [], ◌∷◌, ◌++◌, IfOk, OnOk, decimal, flat_map, encode_utf8_all};
ghost use Rattle.std.specs.String.{string_bytes};
ghost use Rattle.zs_printing.specs.Pieces.{word, number, responder, pieces_text};
ghost use Rattle.zs_events.specs.declared.received.Received.TheVariants.{Item};
ghost use Rattle.zs_events.specs.declared.turn.Effect.TheVariants.{Send, Hand, Matching};
ghost use Rattle.zs_printing.specs.Printing.{line, marked_line, turn_text, marked_text, answer_fields, effect_fields, effect_pieces, sample_qos, sample_head, sample_options, sample_pieces, hand_pieces, error_pieces, reply_item_pieces, replied_pieces, asked_qos, asked_head, asked_options, asked_pieces, queried_pieces, received_pieces, received_fields};
ghost use Rattle.zs_printing.specs.Words.{kind_word};

use crate::message_printing::append_message;
use crate::piece_printing::{
    append_attachment, append_encoding_if, append_number, append_parameters, append_payload,
    append_payload_if, append_qos, append_reliable, append_responder, append_sample_encoding,
    append_source, append_timestamp, append_word,
};
use crate::repeats::{Last, append_handed};
use crate::words::{is_reliable, kind_word, refusal_name, sample_word, truth_word};
use std::alloc::{AllocError, Global};
use zs_events::{Answer, Effect, HandOver, Kind, Received, Turn};
use zs_query::QueryData;
use zs_sample::{QoSType, Reply, ReplyError, Sample, Text};
use zs_wire::Message;

/// The output lines of a turn: the answer, and each effect. `number` is the event's, from 1.
pub fn print_turn(alloc: Global, number: u64, turn: &Turn) -> Result<Text, AllocError>
    ensures { IfOk result (λ text. encode_utf8_all text ≡ turn_text number turn.now) }
{
    let mut text = String::new(alloc);
    append_turn(&mut text, number, turn)?;
    Text::of(alloc, text.as_str())
}

/// What each output line of a turn begins with.
#[derive(Clone, Copy, Debug)]
pub struct Margin<'a> {
    /// What stands before the event's number, such as a mark and a tab.
    pub before: &'a str,
    /// The event's, from 1.
    pub number: u64,
    /// What stands behind the number and before the tab of the first field, such as a tab and one more field.
    pub behind: &'a str,
}

/// Puts the output lines of a turn behind a text, so that one text's memory serves many turns. After an error some
/// of them may stand there.
pub fn append_turn(out: &mut String, number: u64, turn: &Turn) -> Result<(), AllocError>
    ensures { OnOk result (string_bytes out.new ≡ string_bytes out.old ++ turn_text number turn.now) }
{
    let margin = Margin {
        before: "",
        number,
        behind: "",
    };
    append_marked_turn(out, margin, turn)
}

/// Puts the output lines of a turn, each with this margin, behind a text. After an error some of them may stand there.
pub fn append_marked_turn(
    out: &mut String,
    margin: Margin<'_>,
    turn: &Turn,
) -> Result<(), AllocError>
    ensures { OnOk result (string_bytes out.new
        ≡ string_bytes out.old ++ marked_text margin.entry.before.now margin.entry.number margin.entry.behind.now turn.now) }
{
    append_answer(out, margin, &turn.answer)?;
    append_effects(out, margin, turn.effects.as_slice())
}

/// What a line begins with.
fn append_margin(out: &mut String, margin: Margin<'_>) -> Result<(), AllocError>
    ensures { OnOk result (string_bytes out.new
        ≡ string_bytes out.old ++ (margin.entry.before.now ++ (decimal margin.entry.number ++ margin.entry.behind.now))) }
{
    out.push_str(margin.before)?;
    let number = margin.number;
    write!(out, "{number}")?;
    out.push_str(margin.behind)
}

/// Puts the line of what a read of a channel is answered behind a text, as `append_turn` does with a turn.
#[tactic(auto, using(crate::proofs::Joining::line_joining))]
pub fn append_received(
    out: &mut String,
    number: u64,
    received: &Received<HandOver>,
) -> Result<(), AllocError>
    ensures { OnOk result (string_bytes out.new ≡ string_bytes out.old ++ line number (received_fields received.now)) }
{
    write!(out, "{number}")?;
    append_received_pieces(out, received)?;
    out.push('\n')
}

/// What a read came to: an item, or the word for why there is none.
#[tactic(auto, using(crate::proofs::Joining::joining))]
fn append_received_pieces(out: &mut String, received: &Received<HandOver>) -> Result<(), AllocError>
    ensures { OnOk result (string_bytes out.new ≡ string_bytes out.old ++ pieces_text (received_pieces received.now)) }
{
    match received {
        Received::Item(item) => append_item(out, item),
        Received::Empty => append_word(out, "empty"),
        Received::Disconnected => append_word(out, "disconnected"),
        Received::Deleted => append_word(out, "deleted"),
    }
}

/// An item of a channel.
#[tactic(auto, using(crate::proofs::Joining::joining))]
fn append_item(out: &mut String, item: &HandOver) -> Result<(), AllocError>
    ensures { OnOk result (string_bytes out.new ≡ string_bytes out.old ++ pieces_text (received_pieces (Item item.now))) }
{
    append_word(out, "item")?;
    match item {
        HandOver::Sample { sample, .. } => append_sample(out, sample.get()),
        HandOver::Reply { reply, .. } => append_reply_item(out, reply.get()),
        HandOver::Query { query, .. } => append_asked(out, query.get()),
    }
}

/// The line of the answer: `ok`, with the number that was drawn, if one was, or `refused` and why.
#[tactic(auto, using(crate::proofs::Joining::joining))]
fn append_answer(out: &mut String, margin: Margin<'_>, answer: &Answer) -> Result<(), AllocError>
    ensures { OnOk result (string_bytes out.new
        ≡ string_bytes out.old ++ marked_line margin.entry.before.now margin.entry.number margin.entry.behind.now (answer_fields answer.now)) }
{
    append_margin(out, margin)?;
    match answer {
        Answer::Ok(None) => out.push_str("\tok\n"),
        Answer::Ok(Some(drawn)) => writeln!(out, "\tok\t{drawn}"),
        Answer::Refused(refusal) => {
            let name = refusal_name(*refusal);
            writeln!(out, "\trefused\t{name}")
        }
    }
}

/// The line of each effect. The text of a sample is kept for further effects that hand over the same.
fn append_effects(
    out: &mut String,
    margin: Margin<'_>,
    effects: &[Effect],
) -> Result<(), AllocError>
    ensures { OnOk result (string_bytes out.new
        ≡ string_bytes out.old
        ++ flat_map (λ effect. marked_line margin.entry.before.now margin.entry.number margin.entry.behind.now (effect_fields effect)) effects.now) }
{
    let mut last = Last::Nothing;
    for effect in effects {
        append_effect(out, margin, effect, &mut last)?;
    }
    drop(last);
    Ok(())
}

/// The line of an effect.
#[tactic(auto, using(crate::proofs::Joining::line_joining))]
fn append_effect<'a>(
    out: &mut String,
    margin: Margin<'_>,
    effect: &'a Effect,
    last: &mut Last<'a>,
) -> Result<(), AllocError>
    ensures { OnOk result (string_bytes out.new
        ≡ string_bytes out.old ++ marked_line margin.entry.before.now margin.entry.number margin.entry.behind.now (effect_fields effect.now)) }
{
    append_margin(out, margin)?;
    append_effect_pieces(out, effect, last)?;
    out.push('\n')
}

/// What an effect is: a message, something handed over, an end, or a change that a listener is told.
#[tactic(auto, using(crate::proofs::Joining::joining))]
fn append_effect_pieces<'a>(
    out: &mut String,
    effect: &'a Effect,
    last: &mut Last<'a>,
) -> Result<(), AllocError>
    ensures { OnOk result (string_bytes out.new ≡ string_bytes out.old ++ pieces_text (effect_pieces effect.now)) }
{
    match effect {
        Effect::Send(message) => append_sent(out, message.get()),
        Effect::Hand(hand) => append_hand_over(out, hand, last),
        Effect::End { kind, id } => append_of(out, "end", *kind, *id),
        Effect::Matching { id, matching } => append_matching(out, *id, *matching),
    }
}

/// What is handed over, and to whom: a sample, a reply or a query.
fn append_hand_over<'a>(
    out: &mut String,
    hand: &'a HandOver,
    last: &mut Last<'a>,
) -> Result<(), AllocError>
    ensures { OnOk result (string_bytes out.new ≡ string_bytes out.old ++ pieces_text (effect_pieces (Hand hand.now))) }
{
    match hand {
        HandOver::Sample { kind, id, sample } => append_hand(out, *kind, *id, sample.get(), last),
        HandOver::Reply { kind, id, reply } => append_replied(out, *kind, *id, reply.get()),
        HandOver::Query { id, value, query } => append_queried(out, *id, *value, query.get()),
    }
}

/// A message that goes out to the network.
#[tactic(auto, using(crate::proofs::Joining::joining))]
fn append_sent(out: &mut String, message: &Message) -> Result<(), AllocError>
    ensures { OnOk result (string_bytes out.new ≡ string_bytes out.old ++ pieces_text (effect_pieces (Send message.now))) }
{
    append_word(out, "send")?;
    append_message(out, message)
}

/// A word, and whom it is said of.
#[tactic(auto, using(crate::proofs::Joining::joining))]
fn append_of(out: &mut String, text: &str, kind: Kind, id: u32) -> Result<(), AllocError>
    ensures { OnOk result (string_bytes out.new
        ≡ string_bytes out.old ++ pieces_text (word text.now ∷ word (kind_word kind) ∷ number id ∷ [])) }
{
    append_word(out, text)?;
    append_word(out, kind_word(kind))?;
    append_number(out, id)
}

/// What a listener is told.
#[tactic(auto, using(crate::proofs::Joining::joining))]
fn append_matching(out: &mut String, id: u32, matching: bool) -> Result<(), AllocError>
    ensures { OnOk result (string_bytes out.new
        ≡ string_bytes out.old ++ pieces_text (effect_pieces (Matching id matching))) }
{
    append_word(out, "match")?;
    append_number(out, id)?;
    append_word(out, truth_word(matching))
}

/// A sample that a subscriber, or one of liveliness, is handed.
#[tactic(auto, using(crate::proofs::Joining::joining), unfolding(crate::specs::Printing::hand_pieces))]
fn append_hand<'a>(
    out: &mut String,
    kind: Kind,
    id: u32,
    sample: &'a Sample,
    last: &mut Last<'a>,
) -> Result<(), AllocError>
    ensures { OnOk result (string_bytes out.new
        ≡ string_bytes out.old ++ pieces_text (hand_pieces kind id sample.now)) }
{
    append_of(out, "hand", kind, id)?;
    append_handed(out, sample, last)
}

/// A reply that a get is handed.
#[tactic(auto, using(crate::proofs::Joining::joining), unfolding(crate::specs::Printing::replied_pieces))]
fn append_replied(out: &mut String, kind: Kind, id: u32, reply: &Reply) -> Result<(), AllocError>
    ensures { OnOk result (string_bytes out.new
        ≡ string_bytes out.old ++ pieces_text (replied_pieces kind id reply.now)) }
{
    append_of(out, "reply", kind, id)?;
    append_reply_item(out, reply)
}

/// What a reply brings, and who sent it.
#[tactic(auto, using(crate::proofs::Joining::joining))]
fn append_reply_item(out: &mut String, reply: &Reply) -> Result<(), AllocError>
    ensures { OnOk result (string_bytes out.new
        ≡ string_bytes out.old ++ pieces_text (reply_item_pieces reply.now)) }
{
    match reply.result() {
        Ok(sample) => append_sample(out, sample)?,
        Err(error) => append_error(out, error)?,
    }
    append_responder(out, reply.replier_id())
}

/// The error that a reply brings: its payload, and the encoding of that.
#[tactic(auto, using(crate::proofs::Joining::joining))]
fn append_error(out: &mut String, error: &ReplyError) -> Result<(), AllocError>
    ensures { OnOk result (string_bytes out.new ≡ string_bytes out.old ++ pieces_text (error_pieces error.now)) }
{
    append_word(out, "err")?;
    append_payload(out, error.payload())?;
    append_sample_encoding(out, error.encoding())
}

/// Puts a sample behind a text, with no word of who is handed it.
#[tactic(auto, using(crate::proofs::Joining::joining))]
pub(crate) fn append_sample(out: &mut String, sample: &Sample) -> Result<(), AllocError>
    ensures { OnOk result (string_bytes out.new ≡ string_bytes out.old ++ pieces_text (sample_pieces sample.now)) }
{
    append_sample_head(out, sample)?;
    append_sample_options(out, sample)
}

/// Whether a sample is a put or a deletion, its key, its payload, and the encoding of that.
#[tactic(auto, using(crate::proofs::Joining::joining))]
fn append_sample_head(out: &mut String, sample: &Sample) -> Result<(), AllocError>
    ensures { OnOk result (string_bytes out.new ≡ string_bytes out.old ++ pieces_text (sample_head sample.now)) }
{
    append_word(out, sample_word(sample.kind()))?;
    append_word(out, sample.key_expr().as_str())?;
    append_payload(out, sample.payload())?;
    append_sample_encoding(out, sample.encoding())
}

/// The timestamp, qualities, source and attachment of a sample.
#[tactic(auto, using(crate::proofs::Joining::joining))]
fn append_sample_options(out: &mut String, sample: &Sample) -> Result<(), AllocError>
    ensures { OnOk result (string_bytes out.new ≡ string_bytes out.old ++ pieces_text (sample_options sample.now)) }
{
    append_timestamp(out, sample.timestamp().copied())?;
    append_qos(out, sample_qos(sample))?;
    append_reliable(out, is_reliable(sample.reliability()))?;
    append_source(out, sample.source_info().copied())?;
    append_attachment(out, sample.attachment())
}

/// The quality of service of a sample.
pub(crate) fn sample_qos(sample: &Sample) -> QoSType
    ensures { result ≡ sample_qos sample.now }
{
    QoSType {
        priority: sample.priority().number(),
        congestion: sample.congestion_control(),
        express: sample.express(),
    }
}

/// A query that a queryable is handed, with the number under which it is answered.
#[tactic(auto, using(crate::proofs::Joining::joining), unfolding(crate::specs::Printing::queried_pieces))]
fn append_queried(
    out: &mut String,
    id: u32,
    count: u32,
    query: &QueryData,
) -> Result<(), AllocError>
    ensures { OnOk result (string_bytes out.new
        ≡ string_bytes out.old ++ pieces_text (queried_pieces id count query.now)) }
{
    append_of(out, "hand", Kind::Queryable, id)?;
    append_number(out, count)?;
    append_asked(out, query)
}

/// What a query asks, with no word of who is handed it.
#[tactic(auto, using(crate::proofs::Joining::joining))]
fn append_asked(out: &mut String, query: &QueryData) -> Result<(), AllocError>
    ensures { OnOk result (string_bytes out.new ≡ string_bytes out.old ++ pieces_text (asked_pieces query.now)) }
{
    append_asked_head(out, query)?;
    append_asked_options(out, query)
}

/// The key and the parameters of a query, and its payload and encoding, if it has them.
#[tactic(auto, using(crate::proofs::Joining::joining))]
fn append_asked_head(out: &mut String, query: &QueryData) -> Result<(), AllocError>
    ensures { OnOk result (string_bytes out.new ≡ string_bytes out.old ++ pieces_text (asked_head query.now)) }
{
    append_word(out, query.key_expr().as_str())?;
    append_parameters(out, query.parameters().as_str())?;
    append_payload_if(out, query.payload())?;
    append_encoding_if(out, query.encoding())
}

/// The qualities, source and attachment of a query.
#[tactic(auto, using(crate::proofs::Joining::joining))]
fn append_asked_options(out: &mut String, query: &QueryData) -> Result<(), AllocError>
    ensures { OnOk result (string_bytes out.new ≡ string_bytes out.old ++ pieces_text (asked_options query.now)) }
{
    append_qos(out, asked_qos(query))?;
    append_source(out, query.source_info().copied())?;
    append_attachment(out, query.attachment())
}

/// The quality of service of a query.
fn asked_qos(query: &QueryData) -> QoSType
    ensures { result ≡ asked_qos query.now }
{
    QoSType {
        priority: query.priority().number(),
        congestion: query.congestion_control(),
        express: query.express(),
    }
}
