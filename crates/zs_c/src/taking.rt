//! How an event that C says reaches the session.

ghost use Rattle.std.specs.Prelude.{◌≡◌, ◌⊎◌, IsSome, IfOk};
ghost use Rattle.std.specs.declared.option.Option.{Option};
ghost use Rattle.std.specs.declared.option.Option.TheVariants.{None, Some};
ghost use Rattle.zs_events.specs.declared.event.Event.{Event};
ghost use Rattle.zs_c.specs.Called.{Called, Told};

use crate::slot::Slot;
use crate::status::{NO_EVENT, NO_MEMORY, NOT_OPEN, OK};
use std::alloc::{AllocError, Global};
use zs_events::Event;
use zs_line_session::LineSession;
use zs_message_forms::{AnswerForm, answer_form};

/// Takes the event that was read, if there was memory for it.
pub(crate) fn take_read(
    alloc: Global,
    slot: &mut Slot,
    read: Result<Option<Event>, AllocError>,
    answer: &mut AnswerForm,
) -> u32
    ensures { (said : Option Event) → IfOk read (λ found. found ≡ said) → Called said slot.old.handle.value slot.new.handle.value answer.old answer.new result }
{
    match read {
        Ok(said) => take(alloc, slot, said, answer),
        Err(_) => NO_MEMORY,
    }
}

/// Takes the event, if C said one and there is a session.
pub(crate) fn take(
    alloc: Global,
    slot: &mut Slot,
    said: Option<Event>,
    answer: &mut AnswerForm,
) -> u32
    ensures { Called said slot.old.handle.value slot.new.handle.value answer.old answer.new result }
{
    match said {
        Some(event) => take_event(alloc, slot, event, answer),
        None => refuse(slot),
    }
}

/// The status of a call that says no event: a slot without a session comes first.
fn refuse(slot: &Slot) -> u32
    ensures open { result ≡ 5 → IsSome slot.now.handle.value }
    ensures empty { result ≡ 1 → slot.now.handle.value ≡ None }
    ensures known { (result ≡ 1) ⊎ (result ≡ 5) }
{
    if slot.is_open() { NO_EVENT } else { NOT_OPEN }
}

/// Gives the event to the session of the slot, if it has one. The event is freed in either case.
fn take_event(alloc: Global, slot: &mut Slot, event: Event, answer: &mut AnswerForm) -> u32
    ensures { Called (Some event) slot.old.handle.value slot.new.handle.value answer.old answer.new result }
{
    match slot.take(alloc) {
        Some(mut session) => {
            let status = event_status(&mut session, &event, answer);
            drop(event);
            slot.put(session);
            status
        }
        None => {
            drop(event);
            NOT_OPEN
        }
    }
}

/// Takes the event, and says by a status what came of it.
fn event_status(session: &mut LineSession, event: &Event, answer: &mut AnswerForm) -> u32
    ensures done { result ≡ 0 → Told event.now answer.new session.old session.new }
    ensures kept { ¬ (result ≡ 0) → (session.new ≡ session.old) × (answer.new ≡ answer.old) }
    ensures known { (result ≡ 0) ⊎ (result ≡ 6) }
{
    match session.take(event) {
        Ok(told) => {
            *answer = answer_form(told);
            OK
        }
        Err(_) => NO_MEMORY,
    }
}
