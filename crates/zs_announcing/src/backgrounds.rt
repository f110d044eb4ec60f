//! Entities are left to themselves.

ghost use Rattle.std.specs.Prelude.{◌≡◌, ◌==◌, ◌&&◌, not, Some, IfOk};
ghost use Rattle.std.specs.List.{list_any};
ghost use Rattle.zs_events.specs.Kinds.{background_kind_of};
ghost use Rattle.zs_world.specs.Decisions.{finds, open_decision};

use crate::matching::names_listener;
use crate::queryables::names_queryable;
use crate::subscribers::names_sub;
use std::alloc::AllocError;
use zs_events::{BackgroundKind, Effects, Event, Refusal};
use zs_world::{Change, Decision, EntityChange, SessionTables};

/// What has that kind and number is left to itself: it lives on, and can no longer be named. `NotFound` where it can't
/// be named now.
pub fn decide_background(
    world: &SessionTables,
    kind: BackgroundKind,
    id: u32,
) -> Result<Decision, AllocError>
    ensures { IfOk result (λ made. made ≡ open_decision world.now (Event.Background kind id)) }
{
    if !can_leave(world, kind, id) {
        return Ok(Decision::refused(world.alloc, Refusal::NotFound));
    }
    let change = Change::OfEntities(EntityChange::Leave { kind, id });
    Ok(Decision::of(Effects::new(world.alloc), change))
}

/// Whether what has that kind and number can be named, and so left to itself.
fn can_leave(world: &SessionTables, kind: BackgroundKind, id: u32) -> bool
    ensures { result ≡ finds world.now (Some (record { kind = background_kind_of kind; id = id })) }
{
    match kind {
        BackgroundKind::Sub => names_sub(world, id),
        BackgroundKind::Queryable => names_queryable(world, id),
        BackgroundKind::Listener => names_listener(world, id),
        BackgroundKind::Lsub => names_lsub(world, id),
    }
}

/// Whether a subscriber to liveliness of that number can be named.
pub fn names_lsub(world: &SessionTables, id: u32) -> bool
    ensures { result
        ≡ (list_any (λ row. row.id == id) world.now.liveliness.subs && not (list_any (λ other. other == id) world.now.liveliness.left)) }
{
    world.liveliness.subs().has(id) && !world.liveliness.left().contains(id)
}
