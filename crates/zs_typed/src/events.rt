//! Events.

ghost use Rattle.std.specs.Prelude.{◌≡◌, true};
ghost use Rattle.zs_event_lines.specs.Laws.{are_typed};
ghost use Rattle.zs_event_lines.specs.Lines.{line_of};

use crate::messages::type_message;
use crate::parts::{
    type_inquiry, type_key, type_moment, type_number, type_some_moment, type_some_number,
    type_update, type_value,
};
use crate::symbols::type_text;
use zs_events::Event;

/// Looks at an event. Nothing comes of it but that its fields are known to hold what their types say: so what is printed of
/// whatever event a program holds is read as that event.
#[tactic(auto, unfolding(zs_event_lines::specs::Sayable::is_typed))]
pub fn type_event(event: &Event)
    ensures { are_typed (line_of event.now) ≡ true }
{
    match event {
        Event::Key { key } => type_key(key),
        Event::UndeclareKey { key } => type_key(key),
        Event::Sub { key, .. } => type_key(key),
        Event::Pub { key, settings } => {
            type_key(key);
            type_text(&settings.get().encoding);
        }
        Event::Queryable { key, .. } => type_key(key),
        Event::Querier { key, settings } => {
            type_key(key);
            type_some_moment(settings.timeout);
        }
        Event::Listen { id, .. } => type_number(*id),
        Event::Status { id, .. } => type_number(*id),
        Event::Token { key } => type_key(key),
        Event::Lsub { key, .. } => type_key(key),
        Event::Undeclare { id, .. } => type_number(*id),
        Event::Background { id, .. } => type_number(*id),
        Event::Publish { key, update, .. } => {
            type_key(key);
            type_update(update.get());
        }
        Event::PublishBy { id, update } => {
            type_number(*id);
            type_update(update.get());
        }
        Event::CancelToken => {}
        Event::Cancel {
            cancellation_token: token,
        } => type_number(*token),
        Event::Get {
            key,
            settings,
            inquiry,
            ..
        } => {
            type_key(key);
            type_some_moment(settings.timeout);
            type_inquiry(inquiry.get());
        }
        Event::QuerierGet { id, inquiry, .. } => {
            type_number(*id);
            type_inquiry(inquiry.get());
        }
        Event::LivelinessGet {
            key,
            timeout,
            cancellation_token,
            ..
        } => {
            type_key(key);
            type_some_moment(*timeout);
            type_some_number(*cancellation_token);
        }
        Event::Reply {
            value,
            key,
            update,
            ..
        } => {
            type_number(*value);
            type_key(key);
            type_update(update.get());
        }
        Event::ReplyErr { value, error } => {
            type_number(*value);
            type_value(error.get());
        }
        Event::Share { value } => type_number(*value),
        Event::Finish { value } => type_number(*value),
        Event::Tick { now } => type_moment(*now),
        Event::Close => {}
        Event::Net(message) => type_message(message.get()),
    }
}
