//! Messages from the network.

ghost use Rattle.std.specs.Prelude.{◌≡◌, IfOk};
ghost use Rattle.zs_world.specs.Decisions.{open_decision};

use super::gets::{decide_response, decide_response_final};
use super::tokens::{decide_answered, decide_ended_token, decide_remote_token};
use super::values::decide_request;
use std::alloc::AllocError;
use zs_announcing::{
    decide_ended_queryable, decide_ended_sub, decide_incoming, decide_remote_queryable,
    decide_remote_subscriber, resolve_wire,
};
use zs_events::{Event, Refusal};
use zs_making::content::incoming_content;
use zs_model::into_owned;
use zs_wire::{Message, WireExpr};
use zs_world::{Change, Decision, NetworkChange, SessionTables};

/// What a message from the network makes of an open session.
pub(super) fn decide_message(
    world: &SessionTables,
    message: &Message,
) -> Result<Decision, AllocError>
    ensures { IfOk result (λ made. made ≡ open_decision world.now (Event.Net message.now)) }
{
    match message {
        Message::DeclareKeyExpr { number, wire } => decide_key_expr(world, *number, wire),
        Message::Push(push) => {
            let content = incoming_content(world.alloc, push)?;
            decide_incoming(world, &push.wire, content)
        }
        Message::DeclareSubscriber { id, wire } => decide_remote_subscriber(world, *id, wire),
        Message::DeclareQueryable { id, complete, wire } => {
            decide_remote_queryable(world, *id, *complete, wire)
        }
        Message::UndeclareSubscriber { id } => decide_ended_sub(world, *id),
        Message::UndeclareQueryable { id } => decide_ended_queryable(world, *id),
        Message::DeclareToken { id, wire, interest } => {
            decide_remote_token(world, *id, wire, *interest)
        }
        Message::UndeclareToken { id, wire, interest } => {
            decide_ended_token(world, *id, wire, *interest)
        }
        Message::DeclareFinal { interest } => decide_answered(world, *interest),
        Message::Request(request) => decide_request(world, request),
        Message::Response(response) => decide_response(world, response),
        Message::ResponseFinal { rid } => decide_response_final(world, *rid),
        Message::UndeclareKeyExpr { .. } | Message::Interest { .. } | Message::Close => Ok(
            Decision::quiet(world.alloc, None, Change::Nothing),
        ),
    }
}

/// The network declares a key. Number 0 is refused: on the wire it says that no declared key stands in front.
fn decide_key_expr(
    world: &SessionTables,
    number: u16,
    wire: &WireExpr,
) -> Result<Decision, AllocError>
    ensures { IfOk result (λ made. made ≡ open_decision world.now (Event.Net (Message.DeclareKeyExpr number wire.now))) }
{
    if number == 0 {
        return Ok(Decision::refused(world.alloc, Refusal::UnknownScope));
    }
    let key = match resolve_wire(world, wire)? {
        Ok(key) => key,
        Err(refusal) => return Ok(Decision::refused(world.alloc, refusal)),
    };
    let key = into_owned(world.alloc, key)?;
    let change = Change::OfNetwork(NetworkChange::TellKey { number, key });
    Ok(Decision::quiet(world.alloc, None, change))
}
