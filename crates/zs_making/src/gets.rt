//! Gets, and what comes in for them.

ghost use Rattle.std.specs.Prelude.{◌≡◌, true, IfOk};
ghost use Rattle.zs_keys.specs.Key.{undeclared};
ghost use Rattle.zs_model.specs.Gets.{sample_reply, error_reply, is_unmet, is_unwanted};
ghost use Rattle.zs_model.specs.Replies.{reply_on, error_on};

use crate::content::{reply_content, sample_of};
use std::alloc::{AllocError, Global};
use zs_keys::KeyExpr;
use zs_query::{Outcome, Peek};
use zs_sample::{Encoding, QoSType, Reply, ReplyError};
use zs_wire::{Body, EntityGlobalId, Response, Value};

/// The reply that a response with a value is.
pub fn sample_reply(
    alloc: Global,
    key: KeyExpr<'_>,
    response: &Response,
    body: &Body,
) -> Result<Reply, AllocError>
    requires { key ≡ undeclared key.text }
    ensures { IfOk result (λ reply. reply ≡ sample_reply key.entry.text response.now body.now) }
{
    let body = body.try_clone(alloc)?;
    reply_on(alloc, key, response.qos, response.responder, body)
}

/// A reply with a value.
pub fn reply_on(
    alloc: Global,
    key: KeyExpr<'_>,
    qos: QoSType,
    replier: Option<EntityGlobalId>,
    body: Body,
) -> Result<Reply, AllocError>
    requires { key ≡ undeclared key.text }
    ensures { IfOk result (λ reply. reply ≡ reply_on key.entry.text qos replier body) }
{
    let sample = sample_of(alloc, key, reply_content(qos, body))?;
    Ok(Reply::of(Ok(sample), replier))
}

/// The reply that a response with an error is.
pub fn error_reply(alloc: Global, response: &Response, value: &Value) -> Result<Reply, AllocError>
    ensures { IfOk result (λ reply. reply ≡ error_reply response.now value.now) }
{
    error_on(alloc, response.responder, value)
}

/// A reply with an error.
pub fn error_on(
    alloc: Global,
    replier: Option<EntityGlobalId>,
    value: &Value,
) -> Result<Reply, AllocError>
    ensures { IfOk result (λ reply. reply ≡ error_on replier value.now) }
{
    let payload = value.payload.try_clone(alloc)?;
    let encoding = Encoding::of_text(value.encoding.try_clone(alloc)?);
    let error = ReplyError::of(payload, encoding);
    Ok(Reply::of(Err(error), replier))
}

/// Whether a reply that comes to this means nothing: its get isn't open, or doesn't take its key.
pub fn is_unmet(peek: Peek) -> bool
    ensures { result ≡ is_unmet peek }
{
    matches!(peek, Peek::Unknown | Peek::Unmatched)
}

/// Whether a final that comes to this means nothing: its get isn't open, or doesn't wait for that side, or no longer.
pub fn is_unwanted(outcome: &Outcome) -> bool
    ensures { result ≡ is_unwanted outcome.now }
{
    match outcome {
        Outcome::Counted => false,
        Outcome::Ended(_) => false,
        Outcome::Unknown => true,
        Outcome::Unmatched => true,
        Outcome::Kept => true,
        Outcome::Dropped => true,
        Outcome::Handed(_) => true,
        Outcome::Repeated => true,
    }
}
