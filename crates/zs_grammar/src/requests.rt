//! The form of a query that comes in, read from the fields behind its word.

ghost use Rattle.std.specs.Prelude.{◌≡◌, IfOk};
ghost use Rattle.zs_grammar.specs.Grammar.{request_of};

use std::alloc::{AllocError, Global};
use zs_parts::Fields;
use zs_wire::{CongestionControl, Message, Request};

/// The timeout of a request that says none, in milliseconds.
const REQUEST_TIMEOUT: u64 = 10000;

/// `request N WIRE` and its options
#[tactic(auto, unfolding(zs_parts::specs::Parts::form))]
pub(crate) fn parse_request(
    alloc: Global,
    fields: &mut Fields<'_>,
) -> Result<Option<Message>, AllocError>
    ensures { IfOk result (λ found. found ≡ request_of fields.old) }
{
    let Some(rid) = fields.id() else {
        return Ok(None);
    };
    let Some(wire) = fields.wire(alloc)? else {
        return Ok(None);
    };
    let request = Request {
        rid,
        wire,
        parameters: fields.parameters(alloc)?,
        target: fields.target(),
        consolidation: fields.consolidation(),
        timeout: fields.timeout().unwrap_or(REQUEST_TIMEOUT),
        value: fields.value(alloc)?,
        qos: fields.qos(0, CongestionControl::Block),
        source: fields.source(),
        attachment: fields.attachment(alloc)?,
    };
    Ok(fields.finish(Message::Request(request)))
}
