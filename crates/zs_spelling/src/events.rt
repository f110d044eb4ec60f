//! The keys of events are spelled with characters.

ghost use Rattle.zs_laws.specs.Spelled.{IsSpelled, AllSpelled};

use crate::keys::spell_argument;
use crate::messages::spell_message;
use zs_events::Event;

/// Looks at the key that an event names. Nothing comes of it but that this is known to be spelled with characters: so the laws
/// on messages hold of whatever a program makes its sessions take, without a condition on its texts.
pub fn spell_event(event: &Event)
    ensures { IsSpelled event.now }
{
    match event {
        Event::Key { key } => spell_argument(key),
        Event::UndeclareKey { key } => spell_argument(key),
        Event::Sub { key, .. } => spell_argument(key),
        Event::Pub { key, .. } => spell_argument(key),
        Event::Queryable { key, .. } => spell_argument(key),
        Event::Querier { key, .. } => spell_argument(key),
        Event::Token { key } => spell_argument(key),
        Event::Lsub { key, .. } => spell_argument(key),
        Event::LivelinessGet { key, .. } => spell_argument(key),
        Event::Publish { key, .. } => spell_argument(key),
        Event::Get { key, .. } => spell_argument(key),
        Event::Reply { key, .. } => spell_argument(key),
        Event::Net(message) => spell_message(message.get()),
        _ => {}
    }
}

/// Looks at the keys of events, as those of a session's history, in whatever order.
pub fn spell_events(events: &[Event])
    ensures { AllSpelled events.now }
{
    for event in events {
        spell_event(event);
    }
}
