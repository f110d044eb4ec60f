//! Publishers are declared and undeclared, and publish.

ghost use Rattle.std.specs.Prelude.{◌≡◌, IfOk};
ghost use Rattle.zs_world.specs.Decisions.{open_decision, published_decision};
ghost use Rattle.std.specs.Option.{option_copied};
ghost use Rattle.zs_model.specs.Publishers.{prefix_of, pub_at};

use crate::groups::{joining, leaving};
use crate::keys::{KeyName, resolve};
use crate::publications::publish;
use std::alloc::AllocError;
use zs_events::{EntityKind, Event, KeyArg, PublisherSettings, Refusal, Shared, Update};
use zs_making::content::published_by;
use zs_making::publishers::{key_of, prefix_of};
use zs_model::{PubRow, into_owned};
use zs_tables::GroupKind;
use zs_world::{Change, Decision, EntityChange, EntityRow, SessionTables};

/// A publisher is declared. The network hears of the first one of a group, if it is in the destination.
pub fn decide_pub(
    world: &SessionTables,
    key: &KeyArg,
    settings: &Shared<PublisherSettings>,
) -> Result<Decision, AllocError>
    ensures { IfOk result (λ made. made ≡ open_decision world.now (Event.Pub key.now settings.now)) }
{
    let resolved = match resolve(world, key)? {
        Ok(key) => key,
        Err(refusal) => return Ok(Decision::refused(world.alloc, refusal)),
    };
    if u32::MAX - world.next_entity < 1 {
        return Ok(Decision::refused(world.alloc, Refusal::IdsExhausted));
    }
    let id = world.next_entity;
    let prefix = prefix_of(key, &resolved)?;
    let owned = into_owned(world.alloc, resolved)?;
    let destination = settings.get().destination;
    let effects = joining(
        world,
        GroupKind::Publishers,
        &world.settings.aggregated_publishers,
        id,
        destination,
        key,
        &owned,
    )?;
    let settings = settings.try_clone()?;
    let row = PubRow {
        id,
        key: owned,
        prefix,
        settings,
    };
    let change = Change::OfEntities(EntityChange::Add(EntityRow::Pub(row)));
    Ok(Decision::accepted(Some(id), effects, change))
}

/// A publisher ends, and the listeners to it. The network hears of the last one of a group that it was told of.
pub fn decide_undeclare_pub(world: &SessionTables, id: u32) -> Result<Decision, AllocError>
    ensures { IfOk result (λ made. made ≡ open_decision world.now (Event.Undeclare EntityKind.Pub id)) }
{
    if !world.publishers.has(id) {
        return Ok(Decision::refused(world.alloc, Refusal::NotFound));
    }
    let row = world.publishers.get(id);
    let effects = leaving(
        world,
        GroupKind::Publishers,
        &world.settings.aggregated_publishers,
        row,
    )?;
    Ok(Decision::of(
        effects,
        Change::OfEntities(EntityChange::End {
            kind: EntityKind::Pub,
            id,
        }),
    ))
}

/// The publisher of that number, if it is live.
pub fn live_publisher(world: &SessionTables, id: u32) -> Option<&PubRow>
    ensures { option_copied result ≡ pub_at id world.now.entities.pubs }
{
    world.publishers.get(id)
}

/// What a publisher is told to publish goes out on its key, with its destination and qualities.
pub fn decide_published(
    world: &SessionTables,
    id: u32,
    update: &Update,
) -> Result<Decision, AllocError>
    ensures { IfOk result (λ made. made ≡ published_decision world.now id update.now) }
{
    let Some(row) = world.publishers.get(id) else {
        return Ok(Decision::refused(world.alloc, Refusal::NotFound));
    };
    let content = published_by(world.alloc, row, update)?;
    let effects = publish(world, KeyName::Publisher(id), key_of(row), content)?;
    Ok(Decision::of(effects, Change::Nothing))
}
