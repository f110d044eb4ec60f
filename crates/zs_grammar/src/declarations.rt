//! The forms of declarations that come in, each read from the fields behind its word.

ghost use Rattle.std.specs.Prelude.{◌≡◌, IfOk};
ghost use Rattle.zs_grammar.specs.Grammar.{net_sub_of, net_unsub_of, net_queryable_of, net_unqueryable_of, net_token_of, net_untoken_of, declare_final_of};

use std::alloc::{AllocError, Global};
use zs_parts::Fields;
use zs_wire::Message;

/// `sub N WIRE`
#[tactic(auto, unfolding(zs_parts::specs::Parts::form))]
pub(crate) fn parse_net_sub(
    alloc: Global,
    fields: &mut Fields<'_>,
) -> Result<Option<Message>, AllocError>
    ensures { IfOk result (λ found. found ≡ net_sub_of fields.old) }
{
    let Some(id) = fields.id() else {
        return Ok(None);
    };
    let Some(wire) = fields.wire(alloc)? else {
        return Ok(None);
    };
    Ok(fields.finish(Message::DeclareSubscriber { id, wire }))
}

/// `unsub N`
#[tactic(auto, unfolding(zs_parts::specs::Parts::form))]
pub(crate) fn parse_net_unsub(fields: &mut Fields<'_>) -> Option<Message>
    ensures { result ≡ net_unsub_of fields.old }
{
    let id = fields.id()?;
    fields.finish(Message::UndeclareSubscriber { id })
}

/// `queryable N complete WIRE`, `queryable N partial WIRE`
#[tactic(auto, unfolding(zs_parts::specs::Parts::form))]
pub(crate) fn parse_net_queryable(
    alloc: Global,
    fields: &mut Fields<'_>,
) -> Result<Option<Message>, AllocError>
    ensures { IfOk result (λ found. found ≡ net_queryable_of fields.old) }
{
    let Some(id) = fields.id() else {
        return Ok(None);
    };
    let Some(complete) = fields.complete() else {
        return Ok(None);
    };
    let Some(wire) = fields.wire(alloc)? else {
        return Ok(None);
    };
    let message = Message::DeclareQueryable { id, complete, wire };
    Ok(fields.finish(message))
}

/// `unqueryable N`
#[tactic(auto, unfolding(zs_parts::specs::Parts::form))]
pub(crate) fn parse_net_unqueryable(fields: &mut Fields<'_>) -> Option<Message>
    ensures { result ≡ net_unqueryable_of fields.old }
{
    let id = fields.id()?;
    fields.finish(Message::UndeclareQueryable { id })
}

/// `token N WIRE` and its option
#[tactic(auto, unfolding(zs_parts::specs::Parts::form))]
pub(crate) fn parse_net_token(
    alloc: Global,
    fields: &mut Fields<'_>,
) -> Result<Option<Message>, AllocError>
    ensures { IfOk result (λ found. found ≡ net_token_of fields.old) }
{
    let Some(id) = fields.id() else {
        return Ok(None);
    };
    let Some(wire) = fields.wire(alloc)? else {
        return Ok(None);
    };
    let interest = fields.interest();
    let message = Message::DeclareToken { id, wire, interest };
    Ok(fields.finish(message))
}

/// `untoken N` or `untoken N WIRE`, and its option
#[tactic(auto, unfolding(zs_parts::specs::Parts::form))]
pub(crate) fn parse_net_untoken(
    alloc: Global,
    fields: &mut Fields<'_>,
) -> Result<Option<Message>, AllocError>
    ensures { IfOk result (λ found. found ≡ net_untoken_of fields.old) }
{
    let Some(id) = fields.id() else {
        return Ok(None);
    };
    let wire = fields.wire_if(alloc)?;
    let interest = fields.interest();
    let message = Message::UndeclareToken { id, wire, interest };
    Ok(fields.finish(message))
}

/// `declarefinal` and its option
#[tactic(auto, unfolding(zs_parts::specs::Parts::form))]
pub(crate) fn parse_declare_final(fields: &mut Fields<'_>) -> Option<Message>
    ensures { result ≡ declare_final_of fields.old }
{
    let interest = fields.interest();
    fields.finish(Message::DeclareFinal { interest })
}
