//! A message from its numbers and bytes.

ghost use Rattle.std.specs.Prelude.{◌≡◌, IfOk};
ghost use Rattle.zs_message_forms.specs.Messages.{message_of, later_of};

use crate::declared::{asked, ended_token, key, queryable, subscriber, token};
use crate::forms::{MessageForm, PartsForm};
use crate::spoken::{push, request, response};
use crate::wires::interest;
use std::alloc::{AllocError, Global};
use zs_wire::Message;

/// The message that they say. There is none where a number says nothing, or a text of the message is no UTF-8.
#[tactic(auto, unfolding(crate::specs::Messages::message_of))]
pub fn read_message(
    alloc: Global,
    form: &MessageForm,
    parts: &PartsForm<'_>,
) -> Result<Option<Message>, AllocError>
    ensures { IfOk result (λ found. found ≡ message_of form.now parts.now) }
{
    match form.kind {
        1 => key(alloc, form, parts),
        2 => Ok(Some(Message::UndeclareKeyExpr {
            number: form.key_number,
        })),
        3 => subscriber(alloc, form, parts),
        4 => Ok(Some(Message::UndeclareSubscriber { id: form.id })),
        5 => queryable(alloc, form, parts),
        6 => Ok(Some(Message::UndeclareQueryable { id: form.id })),
        7 => token(alloc, form, parts),
        _ => read_later(alloc, form, parts),
    }
}

/// The message of a higher number.
fn read_later(
    alloc: Global,
    form: &MessageForm,
    parts: &PartsForm<'_>,
) -> Result<Option<Message>, AllocError>
    ensures { IfOk result (λ found. found ≡ later_of form.now parts.now) }
{
    match form.kind {
        8 => ended_token(alloc, form, parts),
        9 => Ok(Some(Message::DeclareFinal {
            interest: interest(form),
        })),
        10 => asked(alloc, form, parts),
        11 => push(alloc, form, parts),
        12 => request(alloc, form, parts),
        13 => response(alloc, form, parts),
        14 => Ok(Some(Message::ResponseFinal { rid: form.id })),
        15 => Ok(Some(Message::Close)),
        _ => Ok(None),
    }
}
