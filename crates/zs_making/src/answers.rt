//! Answers to query values: replies to gets of this session, and responses to requests from the network.

ghost use Rattle.std.specs.Prelude.{◌≡◌, Some, IfOk};
ghost use Rattle.zs_query.specs.Gets.{get_at};
ghost use Rattle.zs_model.specs.Answers.{quality_of, is_refused_on};
ghost use Rattle.zs_model.specs.ValueEffects.{error_effects};

use crate::get_effects::hand_reply;
use std::alloc::{AllocError, Global};
use zs_events::{Effects, ReplyQuality, Shared};
use zs_keys::KeyExpr;
use zs_query::{Gets, RequestRow};
use zs_sample::{Parameters, QoSType, Reply, ZenohParameters};
use zs_wire::{Answered, EntityGlobalId, Response, WireExpr};

/// The qualities of a reply: those that it names, and for the others the query's.
pub fn quality_of(quality: ReplyQuality, query: QoSType) -> QoSType
    ensures { result ≡ quality_of quality query }
{
    QoSType {
        priority: quality.priority.unwrap_or(query.priority),
        congestion: quality.congestion.unwrap_or(query.congestion),
        express: quality.express.unwrap_or(query.express),
    }
}

/// A queryable's response to a request from the network.
pub fn response_by(
    replier: EntityGlobalId,
    rid: u32,
    wire: WireExpr,
    qos: QoSType,
    answered: Answered,
) -> Response
    ensures { result ≡ record { rid = rid; wire = wire; answered = answered; qos = qos; responder = Some replier } }
{
    Response {
        rid,
        wire,
        answered,
        qos,
        responder: Some(replier),
    }
}

/// Whether a request takes no reply on a key.
pub fn is_refused_on(key: &KeyExpr<'_>, row: &RequestRow) -> bool
    ensures { result ≡ is_refused_on key.now.text row.now }
{
    let parameters = Parameters::of(row.parameters.as_str());
    !(parameters.reply_key_expr_any() || row.key.meets(key))
}

/// An error for a get is handed on where that is open.
pub fn error_effects(
    alloc: Global,
    gets: &Gets,
    rid: u32,
    reply: Reply,
) -> Result<Effects, AllocError>
    ensures { IfOk result (λ effects. effects ≡ error_effects (get_at rid gets.now) rid reply) }
{
    let mut effects = Effects::new(alloc);
    if !gets.is_open(rid) {
        return Ok(effects);
    }
    let reply = Shared::new(alloc, reply)?;
    effects.push(hand_reply(rid, reply))?;
    Ok(effects)
}
