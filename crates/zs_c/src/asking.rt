//! The calls by which an application asks and answers.

ghost use Rattle.std.specs.Prelude.{◌≡◌};
ghost use Rattle.std.specs.declared.option.Option.TheVariants.{Some};
ghost use Rattle.zs_events.specs.declared.event.Event.TheVariants.{CancelToken, Cancel, Share, Finish, Tick, Close};
ghost use Rattle.zs_forms.specs.Answers.{reply_of, deletion_reply_of, error_reply_of};
ghost use Rattle.zs_forms.specs.Questions.{get_of, querier_get_of, liveliness_get_of};
ghost use Rattle.zs_c.specs.Called.{Called};

use crate::slot::Slot;
use crate::taking::{take, take_read};
use std::alloc::Global;
use zs_events::Event;
use zs_forms::{
    AskForm, ExtrasForm, InquiryForm, KeyForm, LivelinessForm, ReplyForm, get, liveliness_get,
    querier_get, reply, reply_delete, reply_error,
};
use zs_message_forms::AnswerForm;

/// Asks for values of a key.
#[unsafe(no_mangle)]
pub extern "C" fn yq_get(
    alloc: Global,
    slot: &mut Slot,
    key: &KeyForm<'_>,
    how: &AskForm,
    what: &InquiryForm<'_>,
    answer: &mut AnswerForm,
) -> u32
    ensures { Called (get_of key.now how.now what.now) slot.old.handle.value slot.new.handle.value answer.old answer.new result }
{
    let read = get(alloc, key, how, what);
    take_read(alloc, slot, read, answer)
}

/// A querier asks for values of its key.
#[unsafe(no_mangle)]
pub extern "C" fn yq_querier_get(
    alloc: Global,
    slot: &mut Slot,
    querier: u32,
    what: &InquiryForm<'_>,
    answer: &mut AnswerForm,
) -> u32
    ensures { Called (querier_get_of querier what.now) slot.old.handle.value slot.new.handle.value answer.old answer.new result }
{
    let read = querier_get(alloc, querier, what);
    take_read(alloc, slot, read, answer)
}

/// Asks for the liveliness tokens that are alive.
#[unsafe(no_mangle)]
pub extern "C" fn yq_liveliness_get(
    alloc: Global,
    slot: &mut Slot,
    key: &KeyForm<'_>,
    how: &LivelinessForm,
    answer: &mut AnswerForm,
) -> u32
    ensures { Called (liveliness_get_of key.now how.now) slot.old.handle.value slot.new.handle.value answer.old answer.new result }
{
    let read = liveliness_get(alloc, key, how);
    take_read(alloc, slot, read, answer)
}

/// Makes a cancellation token.
#[unsafe(no_mangle)]
pub extern "C" fn yq_cancellation_token(
    alloc: Global,
    slot: &mut Slot,
    answer: &mut AnswerForm,
) -> u32
    ensures { Called (Some CancelToken) slot.old.handle.value slot.new.handle.value answer.old answer.new result }
{
    take(alloc, slot, Some(Event::CancelToken), answer)
}

/// Cancels what was given a cancellation token.
#[unsafe(no_mangle)]
pub extern "C" fn yq_cancel(
    alloc: Global,
    slot: &mut Slot,
    token: u32,
    answer: &mut AnswerForm,
) -> u32
    ensures { Called (Some (Cancel token)) slot.old.handle.value slot.new.handle.value answer.old answer.new result }
{
    take(
        alloc,
        slot,
        Some(Event::Cancel {
            cancellation_token: token,
        }),
        answer,
    )
}

/// Answers a query with bytes on a key.
#[unsafe(no_mangle)]
pub extern "C" fn yq_reply(
    alloc: Global,
    slot: &mut Slot,
    query: u32,
    key: &KeyForm<'_>,
    payload: &[u8],
    how: &ReplyForm,
    extras: &ExtrasForm<'_>,
    answer: &mut AnswerForm,
) -> u32
    ensures { Called (reply_of query key.now payload.now how.now extras.now) slot.old.handle.value slot.new.handle.value answer.old answer.new result }
{
    let read = reply(alloc, query, key, payload, how, extras);
    take_read(alloc, slot, read, answer)
}

/// Answers a query with the deletion of a key.
#[unsafe(no_mangle)]
pub extern "C" fn yq_reply_delete(
    alloc: Global,
    slot: &mut Slot,
    query: u32,
    key: &KeyForm<'_>,
    how: &ReplyForm,
    extras: &ExtrasForm<'_>,
    answer: &mut AnswerForm,
) -> u32
    ensures { Called (deletion_reply_of query key.now how.now extras.now) slot.old.handle.value slot.new.handle.value answer.old answer.new result }
{
    let read = reply_delete(alloc, query, key, how, extras);
    take_read(alloc, slot, read, answer)
}

/// Answers a query with an error.
#[unsafe(no_mangle)]
pub extern "C" fn yq_reply_error(
    alloc: Global,
    slot: &mut Slot,
    query: u32,
    payload: &[u8],
    encoding: &[u8],
    answer: &mut AnswerForm,
) -> u32
    ensures { Called (error_reply_of query payload.now encoding.now) slot.old.handle.value slot.new.handle.value answer.old answer.new result }
{
    let read = reply_error(alloc, query, payload, encoding);
    take_read(alloc, slot, read, answer)
}

/// Asks for one more number of a query.
#[unsafe(no_mangle)]
pub extern "C" fn yq_share(
    alloc: Global,
    slot: &mut Slot,
    query: u32,
    answer: &mut AnswerForm,
) -> u32
    ensures { Called (Some (Share query)) slot.old.handle.value slot.new.handle.value answer.old answer.new result }
{
    take(alloc, slot, Some(Event::Share { value: query }), answer)
}

/// Gives a query back.
#[unsafe(no_mangle)]
pub extern "C" fn yq_finish(
    alloc: Global,
    slot: &mut Slot,
    query: u32,
    answer: &mut AnswerForm,
) -> u32
    ensures { Called (Some (Finish query)) slot.old.handle.value slot.new.handle.value answer.old answer.new result }
{
    take(alloc, slot, Some(Event::Finish { value: query }), answer)
}

/// A moment has come, in milliseconds.
#[unsafe(no_mangle)]
pub extern "C" fn yq_tick(alloc: Global, slot: &mut Slot, now: u64, answer: &mut AnswerForm) -> u32
    ensures { Called (Some (Tick now)) slot.old.handle.value slot.new.handle.value answer.old answer.new result }
{
    take(alloc, slot, Some(Event::Tick { now }), answer)
}

/// Closes the session, and keeps the effects.
#[unsafe(no_mangle)]
pub extern "C" fn yq_end(alloc: Global, slot: &mut Slot, answer: &mut AnswerForm) -> u32
    ensures { Called (Some Close) slot.old.handle.value slot.new.handle.value answer.old answer.new result }
{
    take(alloc, slot, Some(Event::Close), answer)
}
