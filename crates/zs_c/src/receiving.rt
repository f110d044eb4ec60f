//! The call by which a message comes in.

ghost use Rattle.std.specs.Prelude.{◌≡◌, IfOk};
ghost use Rattle.zs_c.specs.Called.{Called};
ghost use Rattle.zs_c.specs.Received.{received_of};

use crate::slot::Slot;
use crate::taking::take_read;
use std::alloc::{AllocError, Global};
use zs_events::{Event, Shared};
use zs_message_forms::{AnswerForm, MessageForm, PartsForm, read_message};

/// Takes a message from the network.
#[unsafe(no_mangle)]
pub extern "C" fn yq_receive(
    alloc: Global,
    slot: &mut Slot,
    message: &MessageForm,
    parts: &PartsForm<'_>,
    answer: &mut AnswerForm,
) -> u32
    ensures { Called (received_of message.now parts.now) slot.old.handle.value slot.new.handle.value answer.old answer.new result }
{
    let read = received(alloc, message, parts);
    take_read(alloc, slot, read, answer)
}

/// The event of the message that they say.
fn received(
    alloc: Global,
    message: &MessageForm,
    parts: &PartsForm<'_>,
) -> Result<Option<Event>, AllocError>
    ensures { IfOk result (λ found. found ≡ received_of message.now parts.now) }
{
    let Some(message) = read_message(alloc, message, parts)? else {
        return Ok(None);
    };
    let message = Shared::new(alloc, message)?;
    Ok(Some(Event::Net(message)))
}
