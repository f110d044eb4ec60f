//! Messages, and the forms that they give keys.

ghost use Rattle.std.specs.Prelude.{◌≡◌, ◌++◌, ◌∷◌, [], IfOk, OnOk, IfSome, is_some, drop, chars, length, ◌==◌};
ghost use Rattle.std.specs.List.{starts_with};
ghost use Rattle.zs_events.specs.declared.turn.Effect.{Effect};
ghost use Rattle.zs_model.specs.Sends.{full_wire, push_with};

use std::alloc::{AllocError, Global};
use zs_events::{Content, Effect, Effects, Shared};
use zs_sample::Text;
use zs_wire::{Mapping, Message, Push, WireExpr};

/// What stands behind a front of a text, if the text begins with it.
pub fn rest_of<'a>(text: &'a str, front: &str) -> Option<&'a str>
    ensures test { is_some result ≡ starts_with (λ a b. a == b) text.now front.now }
    ensures rest { IfSome result (λ rest. rest.now ≡ drop (length front.now) text.now) }
{
    text.strip_prefix(front)
}

/// A key by its whole text.
pub fn full_wire(alloc: Global, text: &str) -> Result<WireExpr, AllocError>
    ensures { IfOk result (λ wire. wire ≡ full_wire text.now) }
{
    let suffix = Text::of(alloc, text)?;
    Ok(WireExpr {
        scope: 0,
        suffix,
        mapping: Mapping::Sender,
    })
}

/// A key by the number of its front.
pub fn number_wire(alloc: Global, number: u16, rest: &str) -> Result<WireExpr, AllocError>
    ensures { IfOk result (λ wire. wire ≡ record { scope = number; suffix = chars rest.now; mapping = Mapping.Sender }) }
{
    let suffix = text_of(alloc, rest)?;
    Ok(WireExpr {
        scope: number,
        suffix,
        mapping: Mapping::Sender,
    })
}

/// A text. The empty one, behind a declared key, takes no memory.
fn text_of(alloc: Global, text: &str) -> Result<Text, AllocError>
    ensures { IfOk result (λ made. made ≡ chars text.now) }
{
    if text.is_empty() {
        return Ok(Text::empty());
    }
    Text::of(alloc, text)
}

/// The message of a publication. It shares the memory of the payload and the attachment.
pub fn push_of(alloc: Global, wire: WireExpr, content: &Content) -> Result<Message, AllocError>
    ensures { IfOk result (λ message. message ≡ push_with wire content.now) }
{
    let body = content.body.try_clone(alloc)?;
    Ok(Message::Push(Push {
        wire,
        body,
        qos: content.qos,
        reliable: content.reliable,
    }))
}

/// Adds that a message goes to the network.
pub fn push_send(alloc: Global, effects: &mut Effects, message: Message) -> Result<(), AllocError>
    ensures { OnOk result (effects.new ≡ effects.old ++ Effect.Send message ∷ []) }
{
    let message = Shared::new(alloc, message)?;
    effects.push(Effect::Send(message))
}
