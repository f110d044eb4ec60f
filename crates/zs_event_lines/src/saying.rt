//! Whether values of parts can be said in a line.

ghost use Rattle.std.specs.Prelude.{◌≡◌, ◌&&◌};
ghost use Rattle.zs_script.specs.Plain.{is_plain_text};
ghost use Rattle.zs_event_lines.specs.Lines.{body_kind, told_as};
ghost use Rattle.zs_event_lines.specs.Sayable.{if_there, says_key, has_no_question, says_encoding, says_wire, says_body, says_priority, says_channel};
ghost use Rattle.zs_event_lines.specs.Slots.{slot_says};
ghost use Rattle.zs_event_lines.specs.Views.{slot_of};

use crate::shown::Shown;
use crate::texts::{has_no_question, is_plain_text, is_unnumbered, says_encoding};
use zs_events::{Chan, KeyArg, PushBody};
use zs_parts::is_default;
use zs_sample::{SampleKind, Text};
use zs_wire::{Body, Value, WireExpr};

/// Whether a part's value can be said.
#[tactic(auto, unfolding(crate::specs::Sayable::says))]
pub(crate) fn says(shown: Shown<'_>) -> bool
    ensures { result ≡ slot_says (slot_of shown.entry) }
{
    match shown {
        Shown::Key(key) => says_key(key),
        Shown::Selector(key, text) => says_selector(key, text),
        Shown::Wire(wire) => is_plain_text(&wire.suffix),
        Shown::WireIf(wire) => says_wire_if(wire),
        Shown::Update(body) => says_update(body),
        Shown::OwnUpdate(body) => says_update(body),
        Shown::Body(body) => says_body(body),
        Shown::Parameters(text) => is_plain_text(text),
        Shown::Value(value) => says_value(value),
        Shown::Encoding(text) => says_encoding(text),
        Shown::QoS(least, _, qos) => says_priority(least, qos.priority),
        Shown::Quality(quality) => says_priority(1, quality.qos.priority),
        Shown::ReplyQuality(quality) => says_priority_if(quality.priority),
        Shown::Channel(channel) => says_channel(channel),
        Shown::HandedTo(channel) => says_channel(channel),
        _ => true,
    }
}

/// Whether a field can name the key. A text that has the form of a declared number would be read as that number, and a
/// key that is given with its declaration has no form.
fn says_key(key: &KeyArg) -> bool
    ensures { result ≡ says_key key.now }
{
    match key {
        KeyArg::Text(text) => is_plain_text(text) && is_unnumbered(text.as_str()),
        KeyArg::Number { suffix, .. } => is_plain_text(suffix),
        KeyArg::Declared { .. } => false,
    }
}

/// A key and the parameters behind it.
fn says_selector(key: &KeyArg, text: &Text) -> bool
    ensures { result ≡ (says_key key.now && (has_no_question key.now && is_plain_text text.now)) }
{
    says_key(key) && has_key_no_question(key) && is_plain_text(text)
}

/// Whether there is no question mark in it, behind which parameters would stand.
fn has_key_no_question(key: &KeyArg) -> bool
    ensures { result ≡ has_no_question key.now }
{
    match key {
        KeyArg::Text(text) => has_no_question(text.as_str()),
        KeyArg::Number { suffix, .. } => has_no_question(suffix.as_str()),
        KeyArg::Declared { .. } => false,
    }
}

/// Whether a wire expression can be said where it may be left out. One that names nothing is read as left out.
fn says_wire(wire: &WireExpr) -> bool
    ensures { result ≡ says_wire wire.now }
{
    !(wire.scope == 0 && wire.suffix.is_empty()) && is_plain_text(&wire.suffix)
}

/// The same, or that it is left out.
fn says_wire_if(wire: &Option<WireExpr>) -> bool
    ensures { result ≡ if_there says_wire wire.now }
{
    match wire {
        Some(wire) => says_wire(wire),
        None => true,
    }
}

/// Whether the encoding that a put names can be said, if it names one. Deletions have nothing to be said.
fn says_update(body: &PushBody) -> bool
    ensures { result ≡ says_body (body_kind body.now) body.now }
{
    match body {
        PushBody::Put { encoding, .. } => says_encoding_if(encoding),
        PushBody::Delete => true,
    }
}

/// Whether an encoding can be said, if there is one.
fn says_encoding_if(text: &Option<Text>) -> bool
    ensures { result ≡ if_there says_encoding text.now }
{
    match text {
        Some(text) => says_encoding(text),
        None => true,
    }
}

/// Whether the encoding of what a message puts can be said, or needs no word. Deletions have nothing to be said.
fn says_body(body: &Body) -> bool
    ensures { result ≡ says_body body.now.kind (told_as body.now.kind body.now) }
{
    match body.kind {
        SampleKind::Put => is_default(&body.encoding) || says_encoding(&body.encoding),
        SampleKind::Delete => true,
    }
}

/// Whether the encoding of a value can be said, if there is a value.
fn says_value(value: &Option<Value>) -> bool
    ensures { result ≡ if_there (λ w. says_encoding w.encoding) value.now }
{
    match value {
        Some(value) => says_encoding(&value.encoding),
        None => true,
    }
}

/// Whether a priority is one that lines have, from the least number that may stand there to 7.
fn says_priority(least: u8, priority: u8) -> bool
    ensures { result ≡ says_priority least priority }
{
    least <= priority && priority <= 7
}

/// Whether the priority of a reply is from 1 to 7, if it has its own.
fn says_priority_if(priority: Option<u8>) -> bool
    ensures { result ≡ if_there (λ n. says_priority 1 n) priority }
{
    match priority {
        Some(priority) => says_priority(1, priority),
        None => true,
    }
}

/// Whether a channel's size is from 1 to 65535. What is printed at once has none.
fn says_channel(channel: Chan) -> bool
    ensures { result ≡ says_channel channel }
{
    match channel {
        Chan::Print => true,
        Chan::Fifo(size) => 1 <= size && size <= 65535,
        Chan::Ring(size) => 1 <= size && size <= 65535,
    }
}
