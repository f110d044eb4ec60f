//! The sorts of entities, by number.

ghost use Rattle.std.specs.Prelude.{◌≡◌};
ghost use Rattle.zs_forms.specs.Kinds.{entity_of, background_of, parent_of, kind_number};

use zs_events::{BackgroundKind, EntityKind, Kind, ParentKind};

/// What can be undeclared.
pub(crate) fn entity_kind(number: u8) -> Option<EntityKind>
    ensures { result ≡ entity_of number }
{
    match number {
        1 => Some(EntityKind::Sub),
        2 => Some(EntityKind::Lsub),
        3 => Some(EntityKind::Pub),
        4 => Some(EntityKind::Queryable),
        5 => Some(EntityKind::Querier),
        6 => Some(EntityKind::Token),
        7 => Some(EntityKind::Listener),
        _ => None,
    }
}

/// What can be left to itself.
pub(crate) fn background_kind(number: u8) -> Option<BackgroundKind>
    ensures { result ≡ background_of number }
{
    match number {
        1 => Some(BackgroundKind::Sub),
        2 => Some(BackgroundKind::Lsub),
        4 => Some(BackgroundKind::Queryable),
        7 => Some(BackgroundKind::Listener),
        _ => None,
    }
}

/// Whose matching can be asked for.
pub(crate) fn parent_kind(number: u8) -> Option<ParentKind>
    ensures { result ≡ parent_of number }
{
    match number {
        3 => Some(ParentKind::Pub),
        5 => Some(ParentKind::Querier),
        _ => None,
    }
}

/// The number of what something is handed to.
pub fn kind_number(kind: Kind) -> u8
    ensures { result ≡ kind_number kind }
{
    match kind {
        Kind::Subscriber => 1,
        Kind::LivelinessSubscriber => 2,
        Kind::Publisher => 3,
        Kind::Queryable => 4,
        Kind::Querier => 5,
        Kind::Token => 6,
        Kind::Listener => 7,
        Kind::Get => 8,
        Kind::LivelinessGet => 9,
    }
}
