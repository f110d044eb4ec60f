//! Which handlers a turn calls, and with what.
ghost use Rattle.std.specs.Prelude.{◌≡◌, ℕ, ◌++◌, IfOk, OnOk};
ghost use Rattle.zs_turns.specs.Calls.{hand_key, hand_item, wanted_by, wanted_of, held_of};

use crate::item::Item;
use crate::query::Query;
use std::alloc::{AllocError, Global};
use zs_events::{Effect, HandOver, Kind};
use zs_posts::{Key, Posts, Wanted};
use zs_sample::MatchingStatus;

/// The gate of the handler that is called with the hand-over.
fn hand_key(item: &HandOver) -> Key
    ensures { result ≡ hand_key item.now }
{
    match item {
        HandOver::Sample { kind, id, .. } => Key::Of(*kind, *id),
        HandOver::Reply { kind, id, .. } => Key::Of(*kind, *id),
        HandOver::Query { id, .. } => Key::Of(Kind::Queryable, *id),
    }
}

/// What is handed with the hand-over of a session with that tag.
fn hand_item(alloc: Global, tag: u64, item: &HandOver) -> Result<Item, AllocError>
    ensures { IfOk result (λ made. made ≡ hand_item tag item.now) }
{
    match item {
        HandOver::Sample { sample, .. } => {
            let sample = sample.try_clone()?;
            Ok(Item::Sample(sample))
        }
        HandOver::Reply { reply, .. } => {
            let reply = reply.try_clone()?;
            Ok(Item::Reply(reply))
        }
        HandOver::Query { value, query, .. } => {
            let query = Query::of(alloc, tag, *value, query.get())?;
            Ok(Item::Query(query))
        }
    }
}

/// Adds what the hand-over hands to its handler, if that is held.
fn add_hand<H>(
    alloc: Global,
    tag: u64,
    item: &HandOver,
    posts: &Posts<H>,
    all: &mut Vec<Wanted<Item>>,
) -> Result<(), AllocError>
    ensures { OnOk result (all.new.items ≡ all.old.items ++ held_of posts.now.rows (wanted_by tag (Effect.Hand item.now))) }
{
    let key = hand_key(item);
    if !posts.handles(key) {
        return Ok(());
    }
    let item = hand_item(alloc, tag, item)?;
    all.push(Wanted { key, item })?;
    Ok(())
}

/// Adds what the listener of that number hears, if that is held.
fn add_matching<H>(
    id: u32,
    matching: bool,
    posts: &Posts<H>,
    all: &mut Vec<Wanted<Item>>,
) -> Result<(), AllocError>
    ensures { (tag : ℕ) → OnOk result (all.new.items ≡ all.old.items ++ held_of posts.now.rows (wanted_by tag (Effect.Matching id matching))) }
{
    let key = Key::Of(Kind::Listener, id);
    if !posts.handles(key) {
        return Ok(());
    }
    let item = Item::Matching(MatchingStatus::of(matching));
    all.push(Wanted { key, item })?;
    Ok(())
}

/// Adds what the effect wants of the handler that it calls, if it calls one that is held.
fn add_wanted<H>(
    alloc: Global,
    tag: u64,
    effect: &Effect,
    posts: &Posts<H>,
    all: &mut Vec<Wanted<Item>>,
) -> Result<(), AllocError>
    ensures { OnOk result (all.new.items ≡ all.old.items ++ held_of posts.now.rows (wanted_by tag effect.now)) }
{
    match effect {
        Effect::Hand(item) => add_hand(alloc, tag, item, posts, all),
        Effect::Matching { id, matching } => add_matching(*id, *matching, posts, all),
        _ => Ok(()),
    }
}

/// What the effects of a session with that tag want of those handlers that are held, in order: nothing is copied for one
/// that isn't. Samples and replies stay in their places; of a query only the payload and the attachment do, since a
/// queryable may change what it was handed.
///
/// # Errors
///
/// Want of memory alone.
pub fn wanted<H>(
    alloc: Global,
    tag: u64,
    effects: &[Effect],
    posts: &Posts<H>,
) -> Result<Vec<Wanted<Item>>, AllocError>
    ensures { IfOk result (λ all. all.items ≡ held_of posts.now.rows (wanted_of tag effects.now)) }
{
    let mut all = Vec::new(alloc);
    for effect in effects {
        add_wanted(alloc, tag, effect, posts, &mut all)?;
    }
    Ok(all)
}
