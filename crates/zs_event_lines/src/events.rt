//! Events, each printed as its line.

ghost use Rattle.std.specs.Prelude.{◌≡◌, true, Some, IfOk, IfSome, option_map};
ghost use Rattle.std.specs.String.{string_bytes};
ghost use Rattle.zs_events.specs.declared.script_event.ScriptEvent.TheVariants.{Core};
ghost use Rattle.zs_grammar.specs.Grammar.{event_of};
ghost use Rattle.zs_script.specs.Plain.{has_no_line_feed};
ghost use Rattle.zs_event_lines.specs.Slots.{printed, IsPrinted};
ghost use Rattle.zs_event_lines.specs.Lines.{line_of, gathered_event};
ghost use Rattle.zs_event_lines.specs.Exchanges.{is_exchange};
ghost use Rattle.zs_event_lines.specs.Laws.{are_typed};

use crate::declarations::{
    append_lsub, append_parent, append_queryable, append_sub, append_undeclare,
};
use crate::lines::append_line;
use crate::messages::append_net;
use crate::publications::{append_publish, append_publish_by, append_publisher, append_reply};
use crate::queries::{
    append_get, append_liveliness_get, append_querier, append_querier_get, append_reply_error,
};
use crate::shown::Shown;
use std::alloc::{AllocError, Global};
use zs_events::Event;

/// The line of an event, without its line feed. An option stands in it only where its value is not what its absence says.
/// There is none where no line says the event: where a text has a tab or a line feed, or a key's text the form of a
/// declared number; where a key is given with its declaration; where a get's key has a question mark; where the
/// encoding is empty, or a priority is outside its range, or a channel's size; where a
/// message deletes with a payload, or ends a token with a key that names nothing; and of interests.
///
/// The line is read as the event, with the bytes of each payload in one slice. A put or a reply that names the default
/// encoding is read as one that names none, which says the same.
pub fn print_event(alloc: Global, event: &Event) -> Result<Option<String>, AllocError>
    ensures line { IfOk result (λ found. option_map string_bytes found ≡ printed (line_of event.now)) }
    ensures one { IfOk result (λ found. IfSome found (λ text. has_no_line_feed (string_bytes text) ≡ true)) }
    ensures read { are_typed (line_of event.now) ≡ true
        → IfOk result (λ found. IfSome found (λ text. event_of (string_bytes text) ≡ Some (Core (gathered_event event.now)))) }
{
    let mut text = String::new(alloc);
    if append_event(&mut text, event)? {
        return Ok(Some(text));
    }
    Ok(None)
}

/// Puts the line of an event behind a text, as `print_event` gives it, so that one text's memory serves many events, and
/// tells whether there is one. After an error some of it may stand there.
pub fn append_event(out: &mut String, event: &Event) -> Result<bool, AllocError>
    ensures { IfOk result (λ told. IsPrinted (printed (line_of event.now)) told (string_bytes out.old) (string_bytes out.new)) }
{
    match event {
        Event::Key { key } => append_line(out, "key", &[Shown::Key(key)]),
        Event::UndeclareKey { key } => append_line(
            out,
            "undeclare",
            &[Shown::Said("key"), Shown::Key(key)],
        ),
        Event::Sub { origin, key, to } => append_sub(out, *origin, key, *to),
        Event::Pub { key, settings } => append_publisher(out, key, settings),
        Event::Queryable {
            origin,
            complete,
            key,
        } => append_queryable(out, *origin, *complete, key),
        Event::Querier { key, settings } => append_querier(out, key, settings),
        Event::Listen { parent, id } => append_parent(out, "listen", *parent, *id),
        Event::Status { parent, id } => append_parent(out, "status", *parent, *id),
        Event::Token { key } => append_line(out, "token", &[Shown::Key(key)]),
        Event::Lsub { history, key } => append_lsub(out, *history, key),
        Event::Undeclare { kind, id } => append_undeclare(out, *kind, *id),
        Event::Background { kind, id } => append_line(
            out,
            "background",
            &[Shown::Background(*kind), Shown::Number(*id)],
        ),
        Event::CancelToken => append_line(out, "ctoken", &[]),
        Event::Cancel {
            cancellation_token: token,
        } => append_line(out, "cancel", &[Shown::Number(*token)]),
        Event::Share { value } => append_line(out, "share", &[Shown::Number(*value)]),
        Event::Finish { value } => append_line(out, "finish", &[Shown::Number(*value)]),
        Event::Tick { now } => append_line(out, "tick", &[Shown::Moment(*now)]),
        Event::Close => append_line(out, "close", &[]),
        Event::Net(message) => append_net(out, message.get()),
        _ => append_exchange(out, event),
    }
}

/// It is `append_event` of an event by which the application says values, asks for them or answers.
fn append_exchange(out: &mut String, event: &Event) -> Result<bool, AllocError>
    requires { is_exchange event.now ≡ true }
    ensures { IfOk result (λ told. IsPrinted (printed (line_of event.now)) told (string_bytes out.old) (string_bytes out.new)) }
{
    match event {
        Event::Publish {
            destination,
            key,
            update,
            quality,
        } => append_publish(out, *destination, key, update, *quality),
        Event::PublishBy { id, update } => append_publish_by(out, *id, update),
        Event::Get {
            key,
            settings,
            inquiry,
            to,
        } => append_get(out, key, settings, inquiry, *to),
        Event::QuerierGet { id, inquiry, to } => append_querier_get(out, *id, inquiry, *to),
        Event::LivelinessGet {
            key,
            timeout,
            cancellation_token,
            to,
        } => append_liveliness_get(out, key, *timeout, *cancellation_token, *to),
        Event::Reply {
            value,
            key,
            update,
            quality,
        } => append_reply(out, *value, key, update, *quality),
        Event::ReplyErr { value, error } => append_reply_error(out, *value, error),
        _ => unreachable!(),
    }
}
