//! What lines say, each read from the fields behind its word.

ghost use Rattle.std.specs.Prelude.{◌≡◌, [], ◌∷◌, IfOk, option_map};
ghost use Rattle.zs_events.specs.declared.event.Event.TheVariants.{UndeclareKey};
ghost use Rattle.zs_events.specs.declared.script_event.ScriptEvent.TheVariants.{Core};
ghost use Rattle.zs_grammar.specs.Grammar.{event_of, event_of_fields, recv_of, core_by, declare_of, sub_of, queryable_of, listen_of, status_of, undeclare_entity_of, undeclare_of, background_of, tick_of, close_of};
ghost use Rattle.zs_lines.specs.Lines.{fields};
ghost use Rattle.zs_parts.specs.Fields.{texts};
ghost use Rattle.zs_parts.specs.Parts.{key, form};

use crate::gets::{parse_cancel, parse_cancel_token, parse_get, parse_querier, parse_querier_get};
use crate::liveliness::{parse_liveliness_get, parse_lsub, parse_token};
use crate::messages::parse_net;
use crate::publications::{parse_pub, parse_publish, parse_publish_by};
use crate::replies::{parse_finish, parse_reply, parse_reply_error, parse_share};
use std::alloc::{AllocError, Global};
use zs_events::{Event, ScriptEvent};
use zs_lines::Line;
use zs_parts::{Fields, parse_entity_kind};
use zs_sample::SampleKind;

/// What a line says, if its form is one of the script language's.
#[tactic(auto, using(zs_parts::proofs::ReadingFields::utf8_tests), unfolding(crate::specs::Grammar::event_of))]
pub fn parse_event(alloc: Global, line: &Line) -> Result<Option<ScriptEvent>, AllocError>
    ensures { IfOk result (λ found. found ≡ event_of line.now.bytes.items) }
{
    let Ok(text) = str::from_utf8(&line.bytes) else {
        return Ok(None);
    };
    let fields = split_fields(alloc, text)?;
    parse_fields(alloc, &mut Fields::of(&fields))
}

/// A line's fields, which single tabs separate.
fn split_fields(alloc: Global, line: &str) -> Result<Vec<&str>, AllocError>
    ensures { IfOk result (λ found. texts found.items ≡ fields line.now) }
{
    line.split('\t').collect(alloc)
}

/// What fields say, by the first of them: `recv` takes from a channel, other words are events of the session.
fn parse_fields(alloc: Global, fields: &mut Fields<'_>) -> Result<Option<ScriptEvent>, AllocError>
    ensures { IfOk result (λ found. found ≡ event_of_fields fields.old) }
{
    let Some(word) = fields.next() else {
        return Ok(None);
    };
    match word {
        "recv" => Ok(parse_recv(fields)),
        _ => Ok(of_session(parse_core(alloc, word, fields)?)),
    }
}

/// `recv`, a kind and `N`
#[tactic(auto, unfolding(zs_parts::specs::Parts::form))]
fn parse_recv(fields: &mut Fields<'_>) -> Option<ScriptEvent>
    ensures { result ≡ recv_of fields.old }
{
    let kind = fields.channel_kind()?;
    let number = fields.id()?;
    fields.finish(ScriptEvent::Recv { kind, number })
}

/// An event of the session, as what a line says.
fn of_session(event: Option<Event>) -> Option<ScriptEvent>
    ensures { result ≡ option_map Core event }
{
    let event = event?;
    Some(ScriptEvent::Core(event))
}

/// An event of the session, by the first field of its line.
fn parse_core(
    alloc: Global,
    word: &str,
    fields: &mut Fields<'_>,
) -> Result<Option<Event>, AllocError>
    ensures { IfOk result (λ found. found ≡ core_by word.now fields.old) }
{
    match word {
        "key" => parse_declare(alloc, fields),
        "sub" => parse_sub(alloc, fields),
        "pub" => parse_pub(alloc, fields),
        "queryable" => parse_queryable(alloc, fields),
        "querier" => parse_querier(alloc, fields),
        "token" => parse_token(alloc, fields),
        "lsub" => parse_lsub(alloc, fields),
        "listen" => Ok(parse_listen(fields)),
        "status" => Ok(parse_status(fields)),
        "undeclare" => parse_undeclare(alloc, fields),
        "background" => Ok(parse_background(fields)),
        "put" => parse_publish(alloc, SampleKind::Put, fields),
        "delete" => parse_publish(alloc, SampleKind::Delete, fields),
        "pput" => parse_publish_by(alloc, SampleKind::Put, fields),
        "pdel" => parse_publish_by(alloc, SampleKind::Delete, fields),
        "ctoken" => Ok(parse_cancel_token(fields)),
        "cancel" => Ok(parse_cancel(fields)),
        "get" => parse_get(alloc, fields),
        "qget" => parse_querier_get(alloc, fields),
        "lget" => parse_liveliness_get(alloc, fields),
        "reply" => parse_reply(alloc, SampleKind::Put, fields),
        "replydel" => parse_reply(alloc, SampleKind::Delete, fields),
        "replyerr" => parse_reply_error(alloc, fields),
        "share" => Ok(parse_share(fields)),
        "finish" => Ok(parse_finish(fields)),
        "tick" => Ok(parse_tick(fields)),
        "close" => Ok(parse_close(fields)),
        "net" => parse_net(alloc, fields),
        _ => Ok(None),
    }
}

/// `key KEY`
#[tactic(auto, unfolding(zs_parts::specs::Parts::form))]
fn parse_declare(alloc: Global, fields: &mut Fields<'_>) -> Result<Option<Event>, AllocError>
    ensures { IfOk result (λ found. found ≡ declare_of fields.old) }
{
    let Some(key) = fields.key(alloc)? else {
        return Ok(None);
    };
    Ok(fields.finish(Event::Key { key }))
}

/// `sub LOC KEY`, and a channel, which may be left out
#[tactic(auto, unfolding(zs_parts::specs::Parts::form))]
fn parse_sub(alloc: Global, fields: &mut Fields<'_>) -> Result<Option<Event>, AllocError>
    ensures { IfOk result (λ found. found ≡ sub_of fields.old) }
{
    let Some(origin) = fields.locality() else {
        return Ok(None);
    };
    let Some(key) = fields.key(alloc)? else {
        return Ok(None);
    };
    let to = fields.channel();
    Ok(fields.finish(Event::Sub { origin, key, to }))
}

/// `queryable LOC complete KEY`, `queryable LOC partial KEY`
#[tactic(auto, unfolding(zs_parts::specs::Parts::form))]
fn parse_queryable(alloc: Global, fields: &mut Fields<'_>) -> Result<Option<Event>, AllocError>
    ensures { IfOk result (λ found. found ≡ queryable_of fields.old) }
{
    let Some(origin) = fields.locality() else {
        return Ok(None);
    };
    let Some(complete) = fields.complete() else {
        return Ok(None);
    };
    let Some(key) = fields.key(alloc)? else {
        return Ok(None);
    };
    Ok(fields.finish(Event::Queryable {
        origin,
        complete,
        key,
    }))
}

/// `listen pub N`, `listen querier N`
#[tactic(auto, unfolding(zs_parts::specs::Parts::form))]
fn parse_listen(fields: &mut Fields<'_>) -> Option<Event>
    ensures { result ≡ listen_of fields.old }
{
    let parent = fields.parent()?;
    let id = fields.id()?;
    fields.finish(Event::Listen { parent, id })
}

/// `status pub N`, `status querier N`
#[tactic(auto, unfolding(zs_parts::specs::Parts::form))]
fn parse_status(fields: &mut Fields<'_>) -> Option<Event>
    ensures { result ≡ status_of fields.old }
{
    let parent = fields.parent()?;
    let id = fields.id()?;
    fields.finish(Event::Status { parent, id })
}

/// `undeclare key KEY`, and `undeclare`, a kind and `N`
#[tactic(auto, unfolding(crate::specs::Grammar::undeclare_of))]
fn parse_undeclare(alloc: Global, fields: &mut Fields<'_>) -> Result<Option<Event>, AllocError>
    ensures { IfOk result (λ found. found ≡ undeclare_of fields.old) }
{
    let Some(word) = fields.next() else {
        return Ok(None);
    };
    match word {
        "key" => parse_undeclare_key(alloc, fields),
        _ => Ok(parse_undeclare_entity(word, fields)),
    }
}

/// `KEY`, behind `undeclare key`
#[tactic(auto, unfolding(zs_parts::specs::Parts::form))]
fn parse_undeclare_key(alloc: Global, fields: &mut Fields<'_>) -> Result<Option<Event>, AllocError>
    ensures { IfOk result (λ found. found ≡ form (key ∷ []) UndeclareKey fields.old) }
{
    let Some(key) = fields.key(alloc)? else {
        return Ok(None);
    };
    Ok(fields.finish(Event::UndeclareKey { key }))
}

/// `N`, behind `undeclare` and a kind
#[tactic(auto, unfolding(zs_parts::specs::Parts::form))]
fn parse_undeclare_entity(word: &str, fields: &mut Fields<'_>) -> Option<Event>
    ensures { result ≡ undeclare_entity_of word.now fields.old }
{
    let kind = parse_entity_kind(word)?;
    let id = fields.id()?;
    fields.finish(Event::Undeclare { kind, id })
}

/// `background`, a kind and `N`
#[tactic(auto, unfolding(zs_parts::specs::Parts::form))]
fn parse_background(fields: &mut Fields<'_>) -> Option<Event>
    ensures { result ≡ background_of fields.old }
{
    let kind = fields.background_kind()?;
    let id = fields.id()?;
    fields.finish(Event::Background { kind, id })
}

/// `tick N`
#[tactic(auto, unfolding(zs_parts::specs::Parts::form))]
fn parse_tick(fields: &mut Fields<'_>) -> Option<Event>
    ensures { result ≡ tick_of fields.old }
{
    let now = fields.moment()?;
    fields.finish(Event::Tick { now })
}

/// `close`
fn parse_close(fields: &mut Fields<'_>) -> Option<Event>
    ensures { result ≡ close_of fields.old }
{
    fields.finish(Event::Close)
}
