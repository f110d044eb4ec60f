//! The calls by which an application says a value of a key.

ghost use Rattle.std.specs.Prelude.{◌≡◌, IfOk};
ghost use Rattle.std.specs.declared.option.Option.TheVariants.{Some};
ghost use Rattle.zs_forms.specs.Publications.{put_of, delete_of, put_by_of, delete_by_of};
ghost use Rattle.zs_c.specs.Called.{Called};

use crate::slot::Slot;
use crate::taking::take_read;
use std::alloc::{AllocError, Global};
use zs_events::Event;
use zs_forms::{ExtrasForm, KeyForm, PublicationForm, delete, delete_by, put, put_by};
use zs_message_forms::AnswerForm;

/// Puts bytes on a key.
#[unsafe(no_mangle)]
pub extern "C" fn yq_put(
    alloc: Global,
    slot: &mut Slot,
    key: &KeyForm<'_>,
    payload: &[u8],
    how: &PublicationForm,
    extras: &ExtrasForm<'_>,
    answer: &mut AnswerForm,
) -> u32
    ensures { Called (put_of key.now payload.now how.now extras.now) slot.old.handle.value slot.new.handle.value answer.old answer.new result }
{
    let read = put(alloc, key, payload, how, extras);
    take_read(alloc, slot, read, answer)
}

/// Deletes a key's value.
#[unsafe(no_mangle)]
pub extern "C" fn yq_delete(
    alloc: Global,
    slot: &mut Slot,
    key: &KeyForm<'_>,
    how: &PublicationForm,
    extras: &ExtrasForm<'_>,
    answer: &mut AnswerForm,
) -> u32
    ensures { Called (delete_of key.now how.now extras.now) slot.old.handle.value slot.new.handle.value answer.old answer.new result }
{
    let read = delete(alloc, key, how, extras);
    take_read(alloc, slot, read, answer)
}

/// A publisher puts bytes on its key.
#[unsafe(no_mangle)]
pub extern "C" fn yq_publisher_put(
    alloc: Global,
    slot: &mut Slot,
    publisher: u32,
    payload: &[u8],
    extras: &ExtrasForm<'_>,
    answer: &mut AnswerForm,
) -> u32
    ensures { Called (put_by_of publisher payload.now extras.now) slot.old.handle.value slot.new.handle.value answer.old answer.new result }
{
    let read = put_by(alloc, publisher, payload, extras);
    take_read(alloc, slot, read, answer)
}

/// A publisher deletes the value of its key.
#[unsafe(no_mangle)]
pub extern "C" fn yq_publisher_delete(
    alloc: Global,
    slot: &mut Slot,
    publisher: u32,
    extras: &ExtrasForm<'_>,
    answer: &mut AnswerForm,
) -> u32
    ensures { Called (Some (delete_by_of publisher extras.now)) slot.old.handle.value slot.new.handle.value answer.old answer.new result }
{
    let read = deletion(alloc, publisher, extras);
    take_read(alloc, slot, read, answer)
}

/// The event of a deletion by a publisher.
fn deletion(
    alloc: Global,
    publisher: u32,
    extras: &ExtrasForm<'_>,
) -> Result<Option<Event>, AllocError>
    ensures { IfOk result (λ found. found ≡ Some (delete_by_of publisher extras.now)) }
{
    let event = delete_by(alloc, publisher, extras)?;
    Ok(Some(event))
}
