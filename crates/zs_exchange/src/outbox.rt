//! The messages that are to be sent.
ghost use Rattle.std.specs.Prelude.{◌≡◌, List, ◌++◌, OnOk, OnErr};
ghost use Rattle.std.specs.List.{flat_map};
ghost use Rattle.zs_wire.specs.declared.message.Message.{Message as Sent};
ghost use Rattle.zs_exchange.specs.Exchange.{sent_by, kept_messages};

use std::alloc::AllocError;
use std::collections::VecDeque;
use zs_events::Effect;
use zs_shared::Shared;
use zs_wire::Message;

/// Adds the message that the effect sends, if it sends one.
fn push_sent(effect: &Effect, outbox: &mut VecDeque<Shared<Message>>) -> Result<(), AllocError>
    ensures ok { OnOk result (outbox.new.items ≡ outbox.old.items ++ sent_by effect.now) }
    ensures err { OnErr result (outbox.new.items ≡ outbox.old.items) }
{
    match effect {
        Effect::Send(message) => {
            let message = message.try_clone()?;
            outbox.push_back(message)?;
            Ok(())
        }
        _ => Ok(()),
    }
}

/// Adds the messages that the effects send, in order, as far as there is memory.
fn push_each(effects: &[Effect], outbox: &mut VecDeque<Shared<Message>>) -> Result<(), AllocError>
    ensures ok { OnOk result (outbox.new.items ≡ outbox.old.items ++ flat_map sent_by effects.now) }
    ensures err { OnErr result ((more : List Sent) × (outbox.new.items ≡ outbox.old.items ++ more)) }
{
    for effect in effects {
        push_sent(effect, outbox)?;
    }
    Ok(())
}

/// Adds the messages that the effects send, in order, if messages are kept. At `Err` nothing has changed.
pub(crate) fn send_all(
    keeps: bool,
    effects: &[Effect],
    outbox: &mut VecDeque<Shared<Message>>,
) -> Result<(), AllocError>
    ensures ok { OnOk result (outbox.new.items ≡ outbox.old.items ++ kept_messages keeps effects.now) }
    ensures err { OnErr result (outbox.new.items ≡ outbox.old.items) }
{
    if !keeps {
        return Ok(());
    }
    let before = outbox.len();
    match push_each(effects, outbox) {
        Ok(()) => Ok(()),
        Err(why) => {
            outbox.truncate(before);
            Err(why)
        }
    }
}
