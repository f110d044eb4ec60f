//! The forms of lines by which the application asks for values and cancels that, each read from the fields behind its word.

ghost use Rattle.std.specs.Prelude.{◌≡◌, IfOk};
ghost use Rattle.zs_grammar.specs.Grammar.{cancel_token_of, cancel_of, get_of, querier_of, querier_get_of};

use std::alloc::{AllocError, Global};
use zs_events::{Event, Inquiry, QuerySettings, Shared};
use zs_parts::Fields;
use zs_wire::CongestionControl;

/// `ctoken`
pub(crate) fn parse_cancel_token(fields: &mut Fields<'_>) -> Option<Event>
    ensures { result ≡ cancel_token_of fields.old }
{
    fields.finish(Event::CancelToken)
}

/// `cancel N`
#[tactic(auto, unfolding(zs_parts::specs::Parts::form))]
pub(crate) fn parse_cancel(fields: &mut Fields<'_>) -> Option<Event>
    ensures { result ≡ cancel_of fields.old }
{
    let token = fields.id()?;
    fields.finish(Event::Cancel {
        cancellation_token: token,
    })
}

/// `get LOC SELECTOR` and its options
#[tactic(auto, unfolding(zs_parts::specs::Parts::form))]
pub(crate) fn parse_get(alloc: Global, fields: &mut Fields<'_>) -> Result<Option<Event>, AllocError>
    ensures { IfOk result (λ found. found ≡ get_of fields.old) }
{
    let Some(destination) = fields.locality() else {
        return Ok(None);
    };
    let Some((key, parameters)) = fields.selector(alloc)? else {
        return Ok(None);
    };
    let target = fields.target();
    let consolidation = fields.consolidation();
    let timeout = fields.timeout();
    let value = fields.value(alloc)?;
    let qos = fields.qos(1, CongestionControl::Block);
    let source = fields.source();
    let attachment = fields.attachment(alloc)?;
    let settings = QuerySettings {
        destination,
        target,
        consolidation,
        timeout,
        qos,
        any_key: fields.any_key(),
    };
    let inquiry = Inquiry {
        parameters,
        value,
        source,
        attachment,
        cancellation_token: fields.cancellation_token(),
    };
    let to = fields.handed_to();
    let inquiry = Shared::new(alloc, inquiry)?;
    Ok(fields.finish(Event::Get {
        key,
        settings,
        inquiry,
        to,
    }))
}

/// `querier LOC KEY` and its options
#[tactic(auto, unfolding(zs_parts::specs::Parts::form))]
pub(crate) fn parse_querier(
    alloc: Global,
    fields: &mut Fields<'_>,
) -> Result<Option<Event>, AllocError>
    ensures { IfOk result (λ found. found ≡ querier_of fields.old) }
{
    let Some(destination) = fields.locality() else {
        return Ok(None);
    };
    let Some(key) = fields.key(alloc)? else {
        return Ok(None);
    };
    let settings = QuerySettings {
        destination,
        target: fields.target(),
        consolidation: fields.consolidation(),
        timeout: fields.timeout(),
        qos: fields.qos(1, CongestionControl::Block),
        any_key: fields.any_key(),
    };
    Ok(fields.finish(Event::Querier { key, settings }))
}

/// `qget N` and its options
#[tactic(auto, unfolding(zs_parts::specs::Parts::form))]
pub(crate) fn parse_querier_get(
    alloc: Global,
    fields: &mut Fields<'_>,
) -> Result<Option<Event>, AllocError>
    ensures { IfOk result (λ found. found ≡ querier_get_of fields.old) }
{
    let Some(id) = fields.id() else {
        return Ok(None);
    };
    let parameters = fields.parameters(alloc)?;
    let value = fields.value(alloc)?;
    let source = fields.source();
    let attachment = fields.attachment(alloc)?;
    let inquiry = Inquiry {
        parameters,
        value,
        source,
        attachment,
        cancellation_token: fields.cancellation_token(),
    };
    let to = fields.handed_to();
    let inquiry = Shared::new(alloc, inquiry)?;
    Ok(fields.finish(Event::QuerierGet { id, inquiry, to }))
}
