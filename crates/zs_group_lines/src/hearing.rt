//! What a view hears of what a session hands over.

ghost use Rattle.std.specs.Prelude.{◌≡◌, OnOk};
ghost use Rattle.zs_group_lines.specs.Tokens.{heard, heard_effect, heard_item, heard_numbered};

use std::alloc::AllocError;
use zs_events::{Effect, Effects, HandOver, Kind};
use zs_members::View;
use zs_sample::Sample;

/// Has a view take what effects hand to the liveliness subscriber of that number, in their order.
///
/// # Errors
///
/// Want of memory alone. Then it may have taken some of it.
pub fn hear_effects(view: &mut View, id: u32, effects: &Effects) -> Result<(), AllocError>
    ensures { OnOk result (view.new ≡ heard id effects.now view.old) }
{
    let items = effects.as_slice();
    for effect in items {
        hear_effect(view, id, effect)?;
    }
    Ok(())
}

/// Has a view take what one effect hands over. Other effects change nothing.
fn hear_effect(view: &mut View, id: u32, effect: &Effect) -> Result<(), AllocError>
    ensures { OnOk result (view.new ≡ heard_effect id effect.now view.old) }
{
    match effect {
        Effect::Hand(item) => hear_item(view, id, item),
        _ => Ok(()),
    }
}

/// Has a view take what is handed over, if it is a sample for that subscriber.
fn hear_item(view: &mut View, id: u32, item: &HandOver) -> Result<(), AllocError>
    ensures { OnOk result (view.new ≡ heard_item id item.now view.old) }
{
    match item {
        HandOver::Sample {
            kind,
            id: number,
            sample,
        } => hear_numbered(view, *kind, *number, id, sample.get()),
        _ => Ok(()),
    }
}

/// Has a view take a sample that goes to a liveliness subscriber of number `id`; others change nothing.
fn hear_numbered(
    view: &mut View,
    kind: Kind,
    number: u32,
    id: u32,
    sample: &Sample,
) -> Result<(), AllocError>
    ensures { OnOk result (view.new ≡ heard_numbered kind number id sample.now view.old) }
{
    match kind {
        Kind::LivelinessSubscriber => {
            if number == id {
                view.take(sample)
            } else {
                Ok(())
            }
        }
        _ => Ok(()),
    }
}
