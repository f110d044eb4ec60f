//! How many messages a turn sends.
ghost use Rattle.std.specs.Prelude.{◌≡◌, length};
ghost use Rattle.std.specs.List.{flat_map};
ghost use Rattle.std.specs.Option.{option_to_list};
ghost use Rattle.zs_exchange.specs.Exchange.{sent_by};
ghost use Rattle.zs_held.specs.Messages.{turn_messages};

use zs_events::{Effect, Turn};
use zs_shared::Shared;
use zs_wire::Message;

/// How many messages an effect sends: one or none.
fn count_sent(effect: &Effect) -> u64
    ensures { result ≡ length (sent_by effect.now) }
{
    match effect {
        Effect::Send(_) => 1,
        _ => 0,
    }
}

/// How many messages effects send together.
fn count_all(effects: &[Effect]) -> u64
    ensures { result ≡ length (flat_map sent_by effects.now) }
{
    let mut count: u64 = 0;
    for effect in effects {
        count += count_sent(effect);
    }
    count
}

/// How many messages a turn sends.
pub(crate) fn count_messages(turn: &Turn) -> u64
    ensures { result ≡ length (turn_messages turn.now) }
{
    count_all(turn.effects.as_slice())
}

/// How many messages there are: one or none.
pub(crate) fn count_of(message: &Option<Shared<Message>>) -> u64
    ensures { result ≡ length (option_to_list message.now) }
{
    match message {
        Some(_) => 1,
        None => 0,
    }
}
