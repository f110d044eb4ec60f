//! Tokens that the network tells and ends, for those who want to know of them.

ghost use Rattle.std.specs.Prelude.{◌≡◌, ◌++◌, map, Some, None, IfOk, OnOk};
ghost use Rattle.zs_keys.specs.Key.{undeclared};
ghost use Rattle.zs_model.specs.Tokens.{answers};
ghost use Rattle.zs_model.specs.LivelinessEffects.{token_content, token_sample, token_reply, hand_sample, hand_answer, end_asking, answer_hands, lsub_ends};
ghost use Rattle.zs_query.specs.Gets.{timeout_error};

use crate::content::sample_of;
use std::alloc::{AllocError, Global};
use zs_events::{Content, Effect, Effects, HandOver, Kind, Shared, default_encoding};
use zs_keys::KeyExpr;
use zs_sample::{
    CongestionControl, Encoding, Locality, QoSType, Reply, ReplyError, Sample, SampleKind, ZBytes,
};
use zs_tables::LivelinessSubs;
use zs_wire::Body;

/// A token answers the get of that number.
pub fn answer(alloc: Global, interest: Option<u32>, key: KeyExpr<'_>) -> Result<Effects, AllocError>
    requires { key ≡ undeclared key.text }
    ensures { IfOk result (λ effects. effects ≡ answer_hands interest (Some key.entry.text)) }
{
    let mut effects = Effects::new(alloc);
    match interest {
        Some(number) => {
            let reply = token_reply(alloc, key)?;
            effects.push(hand_answer(number, reply))?;
            Ok(effects)
        }
        None => Ok(effects),
    }
}

/// A token that lives, as a reply.
fn token_reply(alloc: Global, key: KeyExpr<'_>) -> Result<Shared<Reply>, AllocError>
    requires { key ≡ undeclared key.text }
    ensures { IfOk result (λ reply. reply ≡ token_reply key.entry.text) }
{
    let sample = token_sample(alloc, SampleKind::Put, key)?;
    Shared::new(alloc, Reply::of(Ok(sample), None))
}

/// The same sample for each of these subscribers.
pub fn hand_copies(
    sample: &Shared<Sample>,
    ids: &[u32],
    effects: &mut Effects,
) -> Result<(), AllocError>
    ensures { OnOk result (effects.new ≡ effects.old ++ map (hand_sample sample.now) ids.now) }
{
    for id in ids {
        effects.push(hand_sample(sample.try_clone()?, *id))?;
    }
    Ok(())
}

/// A sample for a subscriber.
pub(crate) fn hand_sample(sample: Shared<Sample>, id: u32) -> Effect
    ensures { result ≡ hand_sample sample id }
{
    Effect::Hand(HandOver::Sample {
        kind: Kind::LivelinessSubscriber,
        id,
        sample,
    })
}

/// A token as a sample: it says nothing but its key, and whether it lives.
pub fn token_sample(alloc: Global, kind: SampleKind, key: KeyExpr<'_>) -> Result<Sample, AllocError>
    requires { key ≡ undeclared key.text }
    ensures { IfOk result (λ sample. sample ≡ token_sample kind key.entry.text) }
{
    sample_of(alloc, key, token_content(kind))
}

/// An empty body with the default encoding, and the protocol's default quality of service: priority 5 is `Data`.
fn token_content(kind: SampleKind) -> Content
    ensures { result ≡ token_content kind }
{
    Content {
        local: false,
        destination: Locality::Any,
        body: Body {
            kind,
            payload: ZBytes::new(),
            encoding: default_encoding(),
            timestamp: None,
            source: None,
            attachment: None,
        },
        qos: QoSType {
            priority: 5,
            congestion: CongestionControl::Drop,
            express: false,
        },
        reliable: true,
    }
}

/// The gets of tokens of these numbers get the error that says that their deadline is reached.
pub(crate) fn push_timeouts(
    alloc: Global,
    numbers: &[u32],
    effects: &mut Effects,
) -> Result<(), AllocError>
    ensures { OnOk result (effects.new ≡ effects.old ++ map (hand_answer timeout_error) numbers.now) }
{
    if numbers.is_empty() {
        return Ok(());
    }
    let error = timeout_error(alloc)?;
    let error = Shared::new(alloc, error)?;
    push_answers(&error, numbers, effects)
}

/// The same reply for each of these gets of tokens.
fn push_answers(
    reply: &Shared<Reply>,
    numbers: &[u32],
    effects: &mut Effects,
) -> Result<(), AllocError>
    ensures { OnOk result (effects.new ≡ effects.old ++ map (hand_answer reply.now) numbers.now) }
{
    for number in numbers {
        effects.push(hand_answer(*number, reply.try_clone()?))?;
    }
    Ok(())
}

/// The gets of tokens of these numbers end.
pub fn push_asking_ends(numbers: &[u32], effects: &mut Effects) -> Result<(), AllocError>
    ensures { OnOk result (effects.new ≡ effects.old ++ map end_asking numbers.now) }
{
    for number in numbers {
        effects.push(end_asking(*number))?;
    }
    Ok(())
}

/// These subscribers are called no more.
pub fn push_lsub_ends(effects: &mut Effects, subs: &LivelinessSubs) -> Result<(), AllocError>
    ensures { OnOk result (effects.new ≡ effects.old ++ lsub_ends subs.now) }
{
    for (_id, row) in subs.iter() {
        effects.push(Effect::End {
            kind: Kind::LivelinessSubscriber,
            id: row.id,
        })?;
    }
    Ok(())
}

/// The error that says that a deadline is reached.
fn timeout_error(alloc: Global) -> Result<Reply, AllocError>
    ensures { IfOk result (λ error. error ≡ timeout_error) }
{
    let payload = ZBytes::from_str(alloc, "Timeout")?;
    let error = ReplyError::of(payload, Encoding::ZENOH_STRING);
    Ok(Reply::of(Err(error), None))
}

/// A reply for the get of tokens of a number.
fn hand_answer(number: u32, reply: Shared<Reply>) -> Effect
    ensures { result ≡ hand_answer reply number }
{
    Effect::Hand(HandOver::Reply {
        kind: Kind::LivelinessGet,
        id: number,
        reply,
    })
}

/// The end of that get.
pub fn end_asking(number: u32) -> Effect
    ensures { result ≡ end_asking number }
{
    Effect::End {
        kind: Kind::LivelinessGet,
        id: number,
    }
}
