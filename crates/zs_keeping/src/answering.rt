//! What a store answers a query.

ghost use Rattle.std.specs.Prelude.{◌≡◌, ◌==◌, ◌++◌, length, IfOk, OnOk};
ghost use Rattle.zs_bytes.specs.Payload.{bytes_of, one_slice};
ghost use Rattle.zs_store.specs.Entry.{seen};
ghost use Rattle.zs_keeping.specs.Answering.{answers_to, effect_answers, item_answers, answers_of, replies_of, reply_if, reply_of, update_of, body_of};

use std::alloc::{AllocError, Global};
use zs_bytes::ZBytes;
use zs_events::{Effect, Effects, Event, HandOver, KeyArg, PushBody, ReplyQuality, Update};
use zs_keys::texts_meet;
use zs_sample::Text;
use zs_shared::Shared;
use zs_store::{Entry, Store};
use zs_wire::SampleKind;

/// The events by which a store answers the queries among effects that are handed to the queryable of that number: for each
/// query, in their order, a reply for each stored key that meets its own, ascending, and then the end.
///
/// # Errors
///
/// Want of memory alone.
pub fn answers_to(
    alloc: Global,
    store: &Store,
    id: u32,
    effects: &Effects,
) -> Result<Vec<Event>, AllocError>
    ensures { IfOk result (λ events. events.items ≡ answers_to id store.now effects.now) }
{
    let mut events = Vec::new(alloc);
    let items = effects.as_slice();
    for effect in items {
        push_answers(alloc, &mut events, store, id, effect)?;
    }
    Ok(events)
}

/// Adds the events that answer an effect: where it hands nothing over there are none.
fn push_answers(
    alloc: Global,
    events: &mut Vec<Event>,
    store: &Store,
    id: u32,
    effect: &Effect,
) -> Result<(), AllocError>
    ensures { OnOk result (events.new.items ≡ events.old.items ++ effect_answers id store.now effect.now) }
{
    match effect {
        Effect::Hand(item) => push_item_answers(alloc, events, store, id, item),
        _ => Ok(()),
    }
}

/// Adds the events that answer an item: where it is no query for the queryable of that number there are none.
fn push_item_answers(
    alloc: Global,
    events: &mut Vec<Event>,
    store: &Store,
    id: u32,
    item: &HandOver,
) -> Result<(), AllocError>
    ensures { OnOk result (events.new.items ≡ events.old.items ++ item_answers id store.now item.now) }
{
    match item {
        HandOver::Query {
            id: number,
            value,
            query,
        } => {
            if *number == id {
                push_all(
                    alloc,
                    events,
                    store,
                    *value,
                    query.get().key_expr().as_str(),
                )
            } else {
                Ok(())
            }
        }
        _ => Ok(()),
    }
}

/// Adds the events that answer the query of that value on a key.
fn push_all(
    alloc: Global,
    events: &mut Vec<Event>,
    store: &Store,
    value: u32,
    key: &str,
) -> Result<(), AllocError>
    ensures { OnOk result (events.new.items ≡ events.old.items ++ answers_of value key.now store.now) }
{
    push_replies(alloc, events, store, value, key)?;
    events.push(Event::Finish { value })?;
    Ok(())
}

/// Adds a reply for each stored key that meets the query's, in the order of the store.
fn push_replies(
    alloc: Global,
    events: &mut Vec<Event>,
    store: &Store,
    value: u32,
    key: &str,
) -> Result<(), AllocError>
    ensures { OnOk result (events.new.items ≡ events.old.items ++ replies_of value key.now store.now) }
{
    'entries: for (text, entry) in store.iter() {
        push_reply(alloc, events, value, key, text.as_str(), entry)?;
    }
    Ok(())
}

/// Adds the reply with what stands at a text, if that meets the key.
fn push_reply(
    alloc: Global,
    events: &mut Vec<Event>,
    value: u32,
    key: &str,
    text: &str,
    entry: &Entry,
) -> Result<(), AllocError>
    ensures { OnOk result (events.new.items ≡ events.old.items ++ reply_if value key.now (record { key = text.now; entry = seen entry.now })) }
{
    if !texts_meet(key, text) {
        return Ok(());
    }
    let event = reply(alloc, value, text, entry)?;
    events.push(event)?;
    Ok(())
}

/// The event that answers the query of that value with what stands at a key.
fn reply(alloc: Global, value: u32, key: &str, entry: &Entry) -> Result<Event, AllocError>
    ensures { IfOk result (λ event. event ≡ reply_of value (record { key = key.now; entry = seen entry.now })) }
{
    let text = Text::of(alloc, key)?;
    let update = shared_update(alloc, entry)?;
    Ok(Event::Reply {
        value,
        key: KeyArg::Text(text),
        update,
        quality: ReplyQuality {
            priority: None,
            congestion: None,
            express: None,
        },
    })
}

/// What a reply says of an entry: its body and its moment, without a source and an attachment.
fn shared_update(alloc: Global, entry: &Entry) -> Result<Shared<Update>, AllocError>
    ensures { IfOk result (λ update. update ≡ update_of (seen entry.now)) }
{
    let body = body(alloc, entry)?;
    let update = Update {
        body,
        timestamp: Some(entry.timestamp),
        source: None,
        attachment: None,
    };
    Shared::new(alloc, update)
}

/// What stands at a key, as a reply says it: the payload in one slice without an encoding, or that it is deleted.
fn body(alloc: Global, entry: &Entry) -> Result<PushBody, AllocError>
    ensures { IfOk result (λ body. body ≡ body_of (seen entry.now)) }
{
    match entry.kind {
        SampleKind::Put => {
            let payload = gathered(alloc, &entry.payload)?;
            Ok(PushBody::Put {
                payload,
                encoding: None,
            })
        }
        SampleKind::Delete => Ok(PushBody::Delete),
    }
}

/// The bytes of a payload in one slice. Where they lie in one already, that slice is shared; otherwise they are copied.
#[tactic(auto, using(crate::proofs::Gathering::gathered_already))]
fn gathered(alloc: Global, payload: &ZBytes) -> Result<ZBytes, AllocError>
    ensures { IfOk result (λ made. made ≡ one_slice (bytes_of payload.now)) }
{
    if payload.is_empty() {
        return Ok(ZBytes::new());
    }
    if is_one_slice(payload) {
        return payload.try_clone(alloc);
    }
    joined(alloc, payload)
}

/// Whether a payload has just one slice.
fn is_one_slice(payload: &ZBytes) -> bool
    ensures { result ≡ (length payload.now == 1) }
{
    let mut slices = payload.slices();
    slices.next().is_some() && slices.next().is_none()
}

/// A copy of the bytes of a payload, in one slice.
fn joined(alloc: Global, payload: &ZBytes) -> Result<ZBytes, AllocError>
    ensures { IfOk result (λ made. made ≡ one_slice (bytes_of payload.now)) }
{
    let bytes = payload.to_bytes(alloc)?;
    ZBytes::from_vec(alloc, bytes.into_owned(alloc)?)
}
