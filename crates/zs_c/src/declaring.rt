//! The calls by which an application declares, and ends what it declared.

ghost use Rattle.std.specs.Prelude.{◌≡◌};
ghost use Rattle.zs_forms.specs.Declarations.{declared_key_of, undeclared_key_of, subscriber_of, publisher_of, queryable_of, token_of, liveliness_subscriber_of, undeclared_of, background_of, listened_of, status_of};
ghost use Rattle.zs_forms.specs.Questions.{querier_of};
ghost use Rattle.zs_c.specs.Called.{Called};

use crate::slot::Slot;
use crate::taking::{take, take_read};
use std::alloc::Global;
use zs_forms::{
    AskForm, KeyForm, PublicationForm, background, declare_key, declare_liveliness_subscriber,
    declare_publisher, declare_querier, declare_queryable, declare_subscriber, declare_token,
    listen, status, undeclare, undeclare_key,
};
use zs_message_forms::AnswerForm;

/// Declares a key, which is from then on held under the number that is drawn.
#[unsafe(no_mangle)]
pub extern "C" fn yq_declare_key(
    alloc: Global,
    slot: &mut Slot,
    key: &KeyForm<'_>,
    answer: &mut AnswerForm,
) -> u32
    ensures { Called (declared_key_of key.now) slot.old.handle.value slot.new.handle.value answer.old answer.new result }
{
    let read = declare_key(alloc, key);
    take_read(alloc, slot, read, answer)
}

/// Gives a declared key back.
#[unsafe(no_mangle)]
pub extern "C" fn yq_undeclare_key(
    alloc: Global,
    slot: &mut Slot,
    key: &KeyForm<'_>,
    answer: &mut AnswerForm,
) -> u32
    ensures { Called (undeclared_key_of key.now) slot.old.handle.value slot.new.handle.value answer.old answer.new result }
{
    let read = undeclare_key(alloc, key);
    take_read(alloc, slot, read, answer)
}

/// Declares a subscriber.
#[unsafe(no_mangle)]
pub extern "C" fn yq_declare_subscriber(
    alloc: Global,
    slot: &mut Slot,
    key: &KeyForm<'_>,
    origin: u8,
    answer: &mut AnswerForm,
) -> u32
    ensures { Called (subscriber_of key.now origin) slot.old.handle.value slot.new.handle.value answer.old answer.new result }
{
    let read = declare_subscriber(alloc, key, origin);
    take_read(alloc, slot, read, answer)
}

/// Declares a publisher.
#[unsafe(no_mangle)]
pub extern "C" fn yq_declare_publisher(
    alloc: Global,
    slot: &mut Slot,
    key: &KeyForm<'_>,
    how: &PublicationForm,
    encoding: &[u8],
    answer: &mut AnswerForm,
) -> u32
    ensures { Called (publisher_of key.now how.now encoding.now) slot.old.handle.value slot.new.handle.value answer.old answer.new result }
{
    let read = declare_publisher(alloc, key, how, encoding);
    take_read(alloc, slot, read, answer)
}

/// Declares a queryable.
#[unsafe(no_mangle)]
pub extern "C" fn yq_declare_queryable(
    alloc: Global,
    slot: &mut Slot,
    key: &KeyForm<'_>,
    origin: u8,
    complete: bool,
    answer: &mut AnswerForm,
) -> u32
    ensures { Called (queryable_of key.now origin complete) slot.old.handle.value slot.new.handle.value answer.old answer.new result }
{
    let read = declare_queryable(alloc, key, origin, complete);
    take_read(alloc, slot, read, answer)
}

/// Declares a querier.
#[unsafe(no_mangle)]
pub extern "C" fn yq_declare_querier(
    alloc: Global,
    slot: &mut Slot,
    key: &KeyForm<'_>,
    how: &AskForm,
    answer: &mut AnswerForm,
) -> u32
    ensures { Called (querier_of key.now how.now) slot.old.handle.value slot.new.handle.value answer.old answer.new result }
{
    let read = declare_querier(alloc, key, how);
    take_read(alloc, slot, read, answer)
}

/// Declares a liveliness token.
#[unsafe(no_mangle)]
pub extern "C" fn yq_declare_token(
    alloc: Global,
    slot: &mut Slot,
    key: &KeyForm<'_>,
    answer: &mut AnswerForm,
) -> u32
    ensures { Called (token_of key.now) slot.old.handle.value slot.new.handle.value answer.old answer.new result }
{
    let read = declare_token(alloc, key);
    take_read(alloc, slot, read, answer)
}

/// Declares a subscriber to liveliness.
#[unsafe(no_mangle)]
pub extern "C" fn yq_declare_liveliness_subscriber(
    alloc: Global,
    slot: &mut Slot,
    key: &KeyForm<'_>,
    history: bool,
    answer: &mut AnswerForm,
) -> u32
    ensures { Called (liveliness_subscriber_of key.now history) slot.old.handle.value slot.new.handle.value answer.old answer.new result }
{
    let read = declare_liveliness_subscriber(alloc, key, history);
    take_read(alloc, slot, read, answer)
}

/// Declares a listener to the matching of a publisher or querier.
#[unsafe(no_mangle)]
pub extern "C" fn yq_declare_listener(
    alloc: Global,
    slot: &mut Slot,
    kind: u8,
    id: u32,
    answer: &mut AnswerForm,
) -> u32
    ensures { Called (listened_of kind id) slot.old.handle.value slot.new.handle.value answer.old answer.new result }
{
    take(alloc, slot, listen(kind, id), answer)
}

/// Asks whether anyone matches a publisher or querier.
#[unsafe(no_mangle)]
pub extern "C" fn yq_matching(
    alloc: Global,
    slot: &mut Slot,
    kind: u8,
    id: u32,
    answer: &mut AnswerForm,
) -> u32
    ensures { Called (status_of kind id) slot.old.handle.value slot.new.handle.value answer.old answer.new result }
{
    take(alloc, slot, status(kind, id), answer)
}

/// Ends what was declared under a number.
#[unsafe(no_mangle)]
pub extern "C" fn yq_undeclare(
    alloc: Global,
    slot: &mut Slot,
    kind: u8,
    id: u32,
    answer: &mut AnswerForm,
) -> u32
    ensures { Called (undeclared_of kind id) slot.old.handle.value slot.new.handle.value answer.old answer.new result }
{
    take(alloc, slot, undeclare(kind, id), answer)
}

/// Leaves what was declared under a number to itself: it lives on, and can no longer be named.
#[unsafe(no_mangle)]
pub extern "C" fn yq_background(
    alloc: Global,
    slot: &mut Slot,
    kind: u8,
    id: u32,
    answer: &mut AnswerForm,
) -> u32
    ensures { Called (background_of kind id) slot.old.handle.value slot.new.handle.value answer.old answer.new result }
{
    take(alloc, slot, background(kind, id), answer)
}
