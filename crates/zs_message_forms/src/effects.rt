//! The numbers of what an event brought about.

ghost use Rattle.std.specs.Prelude.{◌≡◌};
ghost use Rattle.zs_message_forms.specs.Numbers.{is_reliable, sample_form, reply_form, query_form, told, hand_form, effect_form};

use crate::contents::effect_parts;
use crate::forms::{EffectForm, MessageForm};
use crate::numbers::{is_block, is_delete, message_form};
use zs_events::{Effect, HandOver};
use zs_forms::{entity_form, kind_number, source_form, timestamp_form};
use zs_query::QueryData;
use zs_sample::{Reliability, Reply, Sample};

/// Whether it may not be lost on the way.
fn is_reliable(reliability: Reliability) -> bool
    ensures { result ≡ is_reliable reliability }
{
    match reliability {
        Reliability::BestEffort => false,
        Reliability::Reliable => true,
    }
}

/// The numbers of a sample.
fn sample_form(sample: &Sample) -> MessageForm
    ensures { result ≡ sample_form sample.now }
{
    MessageForm {
        deletes: is_delete(sample.kind()),
        has_attachment: sample.attachment().is_some(),
        priority: sample.priority().number(),
        blocks: is_block(sample.congestion_control()),
        express: sample.express(),
        reliable: is_reliable(sample.reliability()),
        timestamp: timestamp_form(sample.timestamp().copied()),
        source: source_form(sample.source_info().copied()),
        ..MessageForm::nothing()
    }
}

/// The numbers of a reply: those of its sample, or that it is an error, and who replied.
fn reply_form(reply: &Reply) -> MessageForm
    ensures { result ≡ reply_form reply.now }
{
    let form = match reply.result() {
        Ok(sample) => sample_form(sample),
        Err(_) => MessageForm {
            is_error: true,
            ..MessageForm::nothing()
        },
    };
    MessageForm {
        responder: entity_form(reply.replier_id()),
        ..form
    }
}

/// The numbers of a query that a queryable is handed.
fn query_form(query: &QueryData) -> MessageForm
    ensures { result ≡ query_form query.now }
{
    MessageForm {
        has_value: query.payload().is_some(),
        has_attachment: query.attachment().is_some(),
        priority: query.priority().number(),
        blocks: is_block(query.congestion_control()),
        express: query.express(),
        source: source_form(query.source_info().copied()),
        ..MessageForm::nothing()
    }
}

/// The numbers of an effect, but for what its kind alone has.
fn told(kind: u8, entity: u8, id: u32, message: MessageForm, effect: &Effect) -> EffectForm
    ensures { result ≡ told kind entity id message effect.now }
{
    EffectForm {
        kind,
        entity,
        id,
        query: 0,
        matching: false,
        message,
        lengths: effect_parts(effect).lengths(),
    }
}

/// The numbers of what is handed over. A query has beside them the number under which it is answered.
fn hand_form(item: &HandOver, effect: &Effect) -> EffectForm
    ensures { result ≡ hand_form item.now effect.now }
{
    match item {
        HandOver::Sample { kind, id, sample } => {
            let form = sample_form(sample.get());
            told(2, kind_number(*kind), *id, form, effect)
        }
        HandOver::Reply { kind, id, reply } => {
            let form = reply_form(reply.get());
            told(3, kind_number(*kind), *id, form, effect)
        }
        HandOver::Query { id, value, query } => {
            let form = query_form(query.get());
            EffectForm {
                query: *value,
                ..told(4, 4, *id, form, effect)
            }
        }
    }
}

/// The numbers of an effect.
#[tactic(auto, unfolding(crate::specs::Numbers::effect_form))]
pub fn effect_form(effect: &Effect) -> EffectForm
    ensures { result ≡ effect_form effect.now }
{
    match effect {
        Effect::Send(message) => told(1, 0, 0, message_form(message.get()), effect),
        Effect::Hand(item) => hand_form(item, effect),
        Effect::End { kind, id } => {
            told(5, kind_number(*kind), *id, MessageForm::nothing(), effect)
        }
        Effect::Matching { id, matching } => EffectForm {
            matching: *matching,
            ..told(6, 7, *id, MessageForm::nothing(), effect)
        },
    }
}
