//! The keys of messages are spelled with characters.

ghost use Rattle.zs_events.specs.Kinds.{message_row};
ghost use Rattle.zs_laws.specs.Spelled.{IsSpelledName};

use crate::keys::{spell_some_wire, spell_wire};
use zs_wire::Message;

/// Looks at the key that a message from the network names.
pub(crate) fn spell_message(message: &Message)
    ensures { IsSpelledName (message_row message.now).key }
{
    match message {
        Message::DeclareKeyExpr { wire, .. } => spell_wire(wire),
        Message::DeclareSubscriber { wire, .. } => spell_wire(wire),
        Message::DeclareQueryable { wire, .. } => spell_wire(wire),
        Message::DeclareToken { wire, .. } => spell_wire(wire),
        Message::UndeclareToken { wire, .. } => spell_some_wire(wire),
        Message::Push(push) => spell_wire(&push.wire),
        Message::Request(request) => spell_wire(&request.wire),
        Message::Response(response) => spell_wire(&response.wire),
        _ => {}
    }
}
