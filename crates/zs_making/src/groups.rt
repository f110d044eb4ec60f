//! Declarations and ends of groups, as messages.

ghost use Rattle.std.specs.Prelude.{◌≡◌, ◌==◌, ◌&&◌, length, None, if◌then◌else◌};
ghost use Rattle.zs_tables.specs.Groups.{groups_of, members_of, number_of_group};
ghost use Rattle.zs_model.specs.Groups.{share_text, joins_first, declaration_by, end_by};

use zs_keys::KeyExpr;
use zs_model::{KeyList, share_text};
use zs_tables::{GroupKind, Groups};
use zs_wire::{InterestMode, InterestWhat, Message, WireExpr};

/// Whether an entity that joins is the first of its group, which the network is told of.
pub fn joins_first(
    groups: &Groups,
    kind: GroupKind,
    aggregates: &KeyList,
    is_announced: bool,
    key: &KeyExpr<'_>,
) -> bool
    ensures { result ≡ (is_announced && length (members_of (share_text aggregates.now key.now.text) (groups_of kind groups.now)) == 0) }
{
    is_announced && groups.members(kind, share_text(aggregates, key)) == 0
}

/// The number of the group that an entity leaves as its last member, if the network was told of it.
pub fn last_number(
    groups: &Groups,
    kind: GroupKind,
    aggregates: &KeyList,
    is_announced: bool,
    key: &KeyExpr<'_>,
) -> Option<u32>
    ensures { result ≡ (if is_announced && length (members_of (share_text aggregates.now key.now.text) (groups_of kind groups.now)) == 1
        then number_of_group (share_text aggregates.now key.now.text) (groups_of kind groups.now) else None) }
{
    let text = share_text(aggregates, key);
    if is_announced && groups.members(kind, text) == 1 {
        return groups.number(kind, text);
    }
    None
}

/// The declaration of a group of that kind, by its number and the form of its key.
pub fn declaration_by(kind: GroupKind, id: u32, wire: WireExpr) -> Message
    ensures { result ≡ declaration_by kind id wire }
{
    let mode = InterestMode::CurrentFuture;
    match kind {
        GroupKind::Subscribers => Message::DeclareSubscriber { id, wire },
        GroupKind::Publishers => Message::Interest {
            id,
            mode,
            what: InterestWhat::Subscribers,
            wire: Some(wire),
        },
        GroupKind::Queriers => Message::Interest {
            id,
            mode,
            what: InterestWhat::Queryables,
            wire: Some(wire),
        },
    }
}

/// The end of that declaration.
pub fn end_by(kind: GroupKind, id: u32) -> Message
    ensures { result ≡ end_by kind id }
{
    let mode = InterestMode::Final;
    match kind {
        GroupKind::Subscribers => Message::UndeclareSubscriber { id },
        GroupKind::Publishers => Message::Interest {
            id,
            mode,
            what: InterestWhat::Subscribers,
            wire: None,
        },
        GroupKind::Queriers => Message::Interest {
            id,
            mode,
            what: InterestWhat::Nothing,
            wire: None,
        },
    }
}
