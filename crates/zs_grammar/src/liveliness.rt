//! The forms of lines about liveliness, each read from the fields behind its word.

ghost use Rattle.std.specs.Prelude.{◌≡◌, IfOk};
ghost use Rattle.zs_grammar.specs.Grammar.{token_of, lsub_of, liveliness_get_of};

use std::alloc::{AllocError, Global};
use zs_events::Event;
use zs_parts::Fields;

/// `token KEY`
#[tactic(auto, unfolding(zs_parts::specs::Parts::form))]
pub(crate) fn parse_token(
    alloc: Global,
    fields: &mut Fields<'_>,
) -> Result<Option<Event>, AllocError>
    ensures { IfOk result (λ found. found ≡ token_of fields.old) }
{
    let Some(key) = fields.key(alloc)? else {
        return Ok(None);
    };
    Ok(fields.finish(Event::Token { key }))
}

/// `lsub history KEY`, `lsub live KEY`
#[tactic(auto, unfolding(zs_parts::specs::Parts::form))]
pub(crate) fn parse_lsub(
    alloc: Global,
    fields: &mut Fields<'_>,
) -> Result<Option<Event>, AllocError>
    ensures { IfOk result (λ found. found ≡ lsub_of fields.old) }
{
    let Some(history) = fields.history() else {
        return Ok(None);
    };
    let Some(key) = fields.key(alloc)? else {
        return Ok(None);
    };
    Ok(fields.finish(Event::Lsub { history, key }))
}

/// `lget KEY` and its options
#[tactic(auto, unfolding(zs_parts::specs::Parts::form))]
pub(crate) fn parse_liveliness_get(
    alloc: Global,
    fields: &mut Fields<'_>,
) -> Result<Option<Event>, AllocError>
    ensures { IfOk result (λ found. found ≡ liveliness_get_of fields.old) }
{
    let Some(key) = fields.key(alloc)? else {
        return Ok(None);
    };
    let event = Event::LivelinessGet {
        key,
        timeout: fields.timeout(),
        cancellation_token: fields.cancellation_token(),
        to: fields.handed_to(),
    };
    Ok(fields.finish(event))
}
