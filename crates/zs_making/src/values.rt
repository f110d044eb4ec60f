//! Query values: what requests draw, and what gives them back.

ghost use Rattle.std.specs.Prelude.{◌≡◌, false, None, IfOk};
ghost use Rattle.zs_model.specs.GetEffects.{hand_query};
ghost use Rattle.zs_model.specs.Values.{wants_complete, network_request};
ghost use Rattle.zs_keys.specs.Key.{undeclared};
ghost use Rattle.zs_events.specs.declared.turn.HandOver.{HandOver};

use std::alloc::{AllocError, Global};
use zs_events::{Effect, HandOver, Shared, clone_bytes};
use zs_keys::KeyExpr;
use zs_model::into_owned;
use zs_query::{QueryData, RequestRow};
use zs_sample::QueryTarget;
use zs_wire::{Request, Value};

/// Whether a request is for complete queryables alone.
pub fn wants_complete(target: QueryTarget) -> bool
    ensures { result ≡ wants_complete target }
{
    matches!(target, QueryTarget::AllComplete)
}

/// What a request from the network asks.
pub fn network_request(
    alloc: Global,
    key: KeyExpr<'_>,
    request: &Request,
) -> Result<RequestRow, AllocError>
    requires { key ≡ undeclared key.text }
    ensures { IfOk result (λ row. row ≡ network_request key.entry.text request.now) }
{
    let key = into_owned(alloc, key)?;
    let parameters = request.parameters.try_clone(alloc)?;
    let value = clone_value(alloc, &request.value)?;
    let attachment = clone_bytes(&request.attachment, alloc)?;
    Ok(RequestRow {
        local: false,
        rid: request.rid,
        key,
        parameters,
        qos: request.qos,
        source: request.source,
        value,
        attachment,
    })
}

/// A copy of the value that a request carries, if it carries one.
fn clone_value(alloc: Global, value: &Option<Value>) -> Result<Option<Value>, AllocError>
    ensures { IfOk result (λ copy. copy ≡ value.now) }
{
    match value {
        Some(value) => Ok(Some(value.try_clone(alloc)?)),
        None => Ok(None),
    }
}

/// A query for a queryable, with the value under which it is answered.
pub fn hand_query(queryable: u32, value: u32, query: Shared<QueryData>) -> Effect
    ensures { result ≡ Effect.Hand (HandOver.Query queryable value query) }
{
    Effect::Hand(HandOver::Query {
        id: queryable,
        value,
        query,
    })
}
