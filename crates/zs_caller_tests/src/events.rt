//! The events of the tests.
ghost use Rattle.std.specs.Prelude.{◌≡◌, true, IfOk};
ghost use Rattle.zs_turns.specs.Gates.{takes_handler};

use crate::waiting::Beside;
use std::alloc::{AllocError, Global};
use zs_declaring::{liveliness_get, subscriber};
use zs_events::{Event, KeyArg, PublicationQuality, PushBody, Update};
use zs_sample::{CongestionControl, Locality, QoSType, Text, ZBytes};
use zs_shared::Shared;
use zs_wire::{Mapping, Message, WireExpr};

// A put of no bytes, of which nothing else is said.
fn update() -> Update {
    Update {
        body: PushBody::Put {
            payload: ZBytes::new(),
            encoding: None,
        },
        timestamp: None,
        source: None,
        attachment: None,
    }
}

/// A put of no bytes.
pub(crate) fn publication(alloc: Global, key: &str) -> Result<Event, AllocError> {
    let key = KeyArg::Text(Text::of(alloc, key)?);
    let update = Shared::new(alloc, update())?;
    Ok(Event::Publish {
        destination: Locality::Any,
        key,
        update,
        quality: PublicationQuality {
            qos: QoSType {
                priority: 5,
                congestion: CongestionControl::Drop,
                express: false,
            },
            reliable: true,
        },
    })
}

// The network answers the get of liveliness, which has the first number that the session draws for entities: a token lives.
fn answer(alloc: Global) -> Result<Event, AllocError> {
    let suffix = Text::of(alloc, "k")?;
    let message = Message::DeclareToken {
        id: 6,
        wire: WireExpr {
            scope: 0,
            suffix,
            mapping: Mapping::Sender,
        },
        interest: Some(2),
    };
    let message = Shared::new(alloc, message)?;
    Ok(Event::Net(message))
}

/// What calls the handler: a put, or an answer to the get of liveliness.
pub(crate) fn calling(alloc: Global, beside: Beside) -> Result<Event, AllocError> {
    match beside {
        Beside::Cancel => answer(alloc),
        _ => publication(alloc, "k"),
    }
}

/// What has the handler: a subscriber, or a get of liveliness with a token.
pub(crate) fn handled(alloc: Global, beside: Beside, token: u32) -> Result<Event, AllocError>
    ensures { IfOk result (λ event. takes_handler event ≡ true) }
{
    let key = KeyArg::Text(Text::of(alloc, "k")?);
    match beside {
        Beside::Cancel => Ok(liveliness_get(key, None, Some(token))),
        _ => Ok(subscriber(Locality::Any, key)),
    }
}
