//! How many samples the turns of a journal hand to subscribers.
ghost use Rattle.std.specs.Prelude.{◌≡◌, ◌≤◌, length};
ghost use Rattle.std.specs.List.{flat_map};
ghost use Rattle.zs_workers.specs.HandOvers.{handed_to, given_to, turn_hands, hands_of};

use zs_cell::Entry;
use zs_events::{Effect, HandOver, Kind, Turn};

/// How many samples an item is for a subscriber: one or none. Those for subscribers to liveliness don't count.
fn count_item(item: &HandOver) -> u64
    ensures is { result ≡ length (handed_to item.now) }
    ensures one { result ≤ 1 }
{
    match item {
        HandOver::Sample { kind, .. } => match kind {
            Kind::Subscriber => 1,
            _ => 0,
        },
        _ => 0,
    }
}

/// How many samples an effect hands to a subscriber: one or none.
fn count_effect(effect: &Effect) -> u64
    ensures is { result ≡ length (given_to effect.now) }
    ensures one { result ≤ 1 }
{
    match effect {
        Effect::Hand(item) => count_item(item),
        _ => 0,
    }
}

/// How many samples effects hand to subscribers together.
fn count_effects(effects: &[Effect]) -> u64
    ensures { result ≡ length (flat_map given_to effects.now) }
{
    let mut count: u64 = 0;
    for effect in effects {
        count += count_effect(effect);
    }
    count
}

/// How many samples a turn hands to subscribers.
fn count_turn(turn: &Turn) -> u64
    ensures { result ≡ length (turn_hands turn.now) }
{
    count_effects(turn.effects.as_slice())
}

/// How many there are. A turn has fewer than `2^64` of them, and a journal fewer turns than that.
pub(crate) fn count_hands(entries: &[Entry]) -> u128
    ensures { result ≡ length (hands_of entries.now) }
{
    let mut count: u128 = 0;
    for entry in entries {
        count += u128::from(count_turn(entry.turn.get()));
    }
    count
}
