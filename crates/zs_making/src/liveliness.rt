//! Liveliness: tokens, the subscribers to them and the gets of them, as the application declares and asks.

ghost use Rattle.std.specs.Prelude.{◌≡◌, ◌++◌, map, OnOk};
ghost use Rattle.zs_model.specs.Effects.{lsub_mode};
ghost use Rattle.zs_model.specs.LivelinessEffects.{hand_remote_token};

use crate::tokens::{hand_sample, token_sample};
use std::alloc::{AllocError, Global};
use zs_events::{Effects, Shared};
use zs_keys::KeyExpr;
use zs_sample::SampleKind;
use zs_wire::InterestMode;

/// What a subscriber asks of tokens: those that come, or also those that stand.
pub fn lsub_mode(history: bool) -> InterestMode
    ensures { result ≡ lsub_mode history }
{
    if history {
        InterestMode::CurrentFuture
    } else {
        InterestMode::Future
    }
}

/// Hands tokens on these keys to a subscriber.
pub fn hand_keys(
    alloc: Global,
    id: u32,
    keys: Vec<KeyExpr<'static>>,
    effects: &mut Effects,
) -> Result<(), AllocError>
    ensures { OnOk result (effects.new ≡ effects.old ++ map (hand_remote_token id) keys.entry.items) }
{
    for key in keys {
        let sample = token_sample(alloc, SampleKind::Put, key.without_declaration())?;
        let sample = Shared::new(alloc, sample)?;
        effects.push(hand_sample(sample, id))?;
    }
    Ok(())
}
