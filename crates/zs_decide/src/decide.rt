//! What a session makes of an event: one call for each kind.

ghost use Rattle.std.specs.Prelude.{◌≡◌, None, [], true, IfOk};
ghost use Rattle.zs_world.specs.Decisions.{decision_of, decision, open_decision, closed_cause};
ghost use Rattle.zs_model.specs.Exchanges.{is_exchange};

use answers::{decide_error_to, decide_reply_to};
use cancelling::{decide_cancel, decide_cancel_token};
use gets::{decide_get, decide_querier_get, decide_tick};
use liveliness::{
    decide_liveliness_get, decide_lsub, decide_token, decide_undeclare_lsub, decide_undeclare_token,
};
use messages::decide_message;
use std::alloc::{AllocError, Global};
use values::{decide_finish, decide_share};
use zs_announcing::{
    decide_background, decide_close, decide_key, decide_listen, decide_pub, decide_publish,
    decide_published, decide_querier, decide_queryable, decide_status, decide_sub,
    decide_undeclare_key, decide_undeclare_listener, decide_undeclare_pub,
    decide_undeclare_querier, decide_undeclare_queryable, decide_undeclare_sub,
};
use zs_events::{EntityKind, Event, Refusal};
use zs_world::{Change, Decision, SessionTables};

mod answers;
mod cancelling;
mod gets;
mod liveliness;
mod messages;
mod tokens;
mod values;

/// What a session makes of an event: its turn and its change, without what that means to listeners.
pub fn decide_alone(world: &SessionTables, event: &Event) -> Result<Decision, AllocError>
    ensures { IfOk result (λ made. made ≡ decision world.now event.now) }
{
    if world.closed {
        return Ok(closed_decision(world.alloc, event));
    }
    decide_open(world, event)
}

/// What an open session makes of an event.
fn decide_open(world: &SessionTables, event: &Event) -> Result<Decision, AllocError>
    ensures { IfOk result (λ made. made ≡ open_decision world.now event.now) }
{
    match event {
        Event::Key { key } => decide_key(world, key),
        Event::UndeclareKey { key } => decide_undeclare_key(world, key),
        Event::Sub { origin, key, .. } => decide_sub(world, *origin, key),
        Event::Pub { key, settings } => decide_pub(world, key, settings),
        Event::Queryable {
            origin,
            complete,
            key,
        } => decide_queryable(world, *origin, *complete, key),
        Event::Querier { key, settings } => decide_querier(world, key, *settings),
        Event::Listen { parent, id } => decide_listen(world, *parent, *id),
        Event::Status { parent, id } => decide_status(world, *parent, *id),
        Event::Token { key } => decide_token(world, key),
        Event::Lsub { history, key } => decide_lsub(world, *history, key),
        Event::Undeclare { kind, id } => decide_undeclare(world, *kind, *id),
        Event::Background { kind, id } => decide_background(world, *kind, *id),
        Event::CancelToken => decide_cancel_token(world),
        Event::Cancel {
            cancellation_token: token,
        } => decide_cancel(world, *token),
        Event::Share { value } => decide_share(world, *value),
        Event::Finish { value } => decide_finish(world, *value),
        Event::Tick { now } => decide_tick(world, *now),
        Event::Close => decide_close(world),
        Event::Net(message) => decide_message(world, message.get()),
        _ => decide_exchange(world, event),
    }
}

/// What it makes of one by which the application says values, asks for them or answers.
fn decide_exchange(world: &SessionTables, event: &Event) -> Result<Decision, AllocError>
    requires { is_exchange event.now ≡ true }
    ensures { IfOk result (λ made. made ≡ open_decision world.now event.now) }
{
    match event {
        Event::Publish {
            destination,
            key,
            update,
            quality,
        } => decide_publish(world, *destination, key, update.get(), *quality),
        Event::PublishBy { id, update } => decide_published(world, *id, update.get()),
        Event::Get {
            key,
            settings,
            inquiry,
            ..
        } => decide_get(world, key, *settings, inquiry.get()),
        Event::QuerierGet { id, inquiry, .. } => decide_querier_get(world, *id, inquiry.get()),
        Event::LivelinessGet {
            key,
            timeout,
            cancellation_token,
            ..
        } => decide_liveliness_get(world, key, *timeout, *cancellation_token),
        Event::Reply {
            value,
            key,
            update,
            quality,
        } => decide_reply_to(world, *value, key, update.get(), *quality),
        Event::ReplyErr { value, error } => decide_error_to(world, *value, error.get()),
        _ => unreachable!(),
    }
}

/// What an open session makes of the end of an entity.
fn decide_undeclare(
    world: &SessionTables,
    kind: EntityKind,
    id: u32,
) -> Result<Decision, AllocError>
    ensures { IfOk result (λ made. made ≡ open_decision world.now (Event.Undeclare kind id)) }
{
    match kind {
        EntityKind::Sub => decide_undeclare_sub(world, id),
        EntityKind::Pub => decide_undeclare_pub(world, id),
        EntityKind::Queryable => decide_undeclare_queryable(world, id),
        EntityKind::Querier => decide_undeclare_querier(world, id),
        EntityKind::Listener => decide_undeclare_listener(world, id),
        EntityKind::Token => decide_undeclare_token(world, id),
        EntityKind::Lsub => decide_undeclare_lsub(world, id),
    }
}

/// What an event behind the close is answered.
fn closed_decision(alloc: Global, event: &Event) -> Decision
    ensures { result ≡ decision_of (closed_cause event.now) None [] Change.Nothing }
{
    match event {
        Event::Undeclare { .. }
        | Event::Background { .. }
        | Event::Reply { .. }
        | Event::ReplyErr { .. }
        | Event::Finish { .. }
        | Event::Cancel { .. }
        | Event::Tick { .. }
        | Event::Close => Decision::quiet(alloc, None, Change::Nothing),
        Event::Net(_) => Decision::refused(alloc, Refusal::Ignored),
        Event::Key { .. }
        | Event::UndeclareKey { .. }
        | Event::Sub { .. }
        | Event::Token { .. }
        | Event::Lsub { .. }
        | Event::LivelinessGet { .. }
        | Event::Pub { .. }
        | Event::Queryable { .. }
        | Event::Querier { .. }
        | Event::QuerierGet { .. }
        | Event::Listen { .. }
        | Event::Status { .. }
        | Event::CancelToken
        | Event::Share { .. }
        | Event::Publish { .. }
        | Event::PublishBy { .. }
        | Event::Get { .. } => Decision::refused(alloc, Refusal::SessionClosedError),
    }
}
