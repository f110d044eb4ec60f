//! What gets bring about.

ghost use Rattle.std.specs.Prelude.{◌≡◌, ◌++◌, map, IfOk, OnOk};
ghost use Rattle.zs_query.specs.declared.outcome.Outcome.{Outcome};
ghost use Rattle.zs_model.specs.GetEffects.{hand_reply, end_get, reply_effects, final_effects, ends_effects, last_hands};
ghost use Rattle.std.specs.List.{flat_map};

use crate::tokens::{push_asking_ends, push_timeouts};
use std::alloc::{AllocError, Global};
use zs_events::{Effect, Effects, HandOver, Kind, Shared};
use zs_query::{Ends, Outcome, Peek, Replies};
use zs_sample::Reply;

/// A reply is handed on where it comes to that.
pub fn reply_effects(
    alloc: Global,
    peek: Peek,
    number: u32,
    reply: &Reply,
) -> Result<Effects, AllocError>
    ensures { IfOk result (λ effects. effects ≡ reply_effects peek number reply.now) }
{
    let mut effects = Effects::new(alloc);
    match peek {
        Peek::Handed => {
            let reply = reply.try_clone(alloc)?;
            let reply = Shared::new(alloc, reply)?;
            effects.push(hand_reply(number, reply))?;
            Ok(effects)
        }
        Peek::Unknown | Peek::Unmatched | Peek::Kept | Peek::Dropped => Ok(effects),
    }
}

/// What a final brings about.
pub fn final_effects(alloc: Global, number: u32, outcome: Outcome) -> Result<Effects, AllocError>
    ensures { IfOk result (λ effects. effects ≡ final_effects number outcome) }
{
    match outcome {
        Outcome::Ended(replies) => last_effects(alloc, number, replies),
        Outcome::Counted => Ok(Effects::new(alloc)),
        Outcome::Unknown => Ok(Effects::new(alloc)),
        Outcome::Unmatched => Ok(Effects::new(alloc)),
        Outcome::Kept => Ok(Effects::new(alloc)),
        Outcome::Dropped => Ok(Effects::new(alloc)),
        Outcome::Handed(reply) => {
            drop(reply);
            Ok(Effects::new(alloc))
        }
        Outcome::Repeated => Ok(Effects::new(alloc)),
    }
}

/// The last final hands out what was kept, and ends the get.
fn last_effects(alloc: Global, number: u32, replies: Replies) -> Result<Effects, AllocError>
    ensures { IfOk result (λ effects. effects ≡ final_effects number (Outcome.Ended replies)) }
{
    let mut effects = Effects::new(alloc);
    hand_replies(alloc, number, replies, &mut effects)?;
    effects.push(end_get(number))?;
    Ok(effects)
}

/// All that these ends hand out and the errors for these gets of tokens, and then the ends of both.
pub fn ends_effects(alloc: Global, ends: Ends, over: &[u32]) -> Result<Effects, AllocError>
    ensures { IfOk result (λ effects. effects ≡ ends_effects ends over.now) }
{
    let numbers = ends.numbers(alloc)?;
    let mut effects = Effects::new(alloc);
    hand_ends(alloc, ends, &mut effects)?;
    push_timeouts(alloc, over, &mut effects)?;
    push_get_ends(&numbers, &mut effects)?;
    push_asking_ends(over, &mut effects)?;
    Ok(effects)
}

/// Hands out what these ends say.
fn hand_ends(alloc: Global, ends: Ends, effects: &mut Effects) -> Result<(), AllocError>
    ensures { OnOk result (effects.new ≡ effects.old ++ flat_map last_hands ends) }
{
    for (number, replies) in ends.into_vec() {
        hand_replies(alloc, number, replies, effects)?;
    }
    Ok(())
}

/// Hands out replies to one get.
fn hand_replies(
    alloc: Global,
    number: u32,
    replies: Replies,
    effects: &mut Effects,
) -> Result<(), AllocError>
    ensures { OnOk result (effects.new ≡ effects.old ++ map (hand_reply number) replies) }
{
    for reply in replies.into_vec() {
        let reply = Shared::new(alloc, reply)?;
        effects.push(hand_reply(number, reply))?;
    }
    Ok(())
}

/// Ends the gets of these numbers.
pub fn push_get_ends(numbers: &[u32], effects: &mut Effects) -> Result<(), AllocError>
    ensures { OnOk result (effects.new ≡ effects.old ++ map end_get numbers.now) }
{
    for number in numbers {
        effects.push(end_get(*number))?;
    }
    Ok(())
}

/// A reply for the get of a number.
pub fn hand_reply(number: u32, reply: Shared<Reply>) -> Effect
    ensures { result ≡ hand_reply number reply }
{
    Effect::Hand(HandOver::Reply {
        kind: Kind::Get,
        id: number,
        reply,
    })
}

/// The end of that get.
pub fn end_get(number: u32) -> Effect
    ensures { result ≡ end_get number }
{
    Effect::End {
        kind: Kind::Get,
        id: number,
    }
}
