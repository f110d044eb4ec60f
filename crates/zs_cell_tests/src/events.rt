//! The events that sessions are given.

ghost use Rattle.std.specs.Prelude.{◌≡◌, true, IfOk};
ghost use Rattle.zs_turns.specs.Gates.{takes_handler};

use std::alloc::{AllocError, Global};
use zs_events::{Chan, Event, KeyArg, PublicationQuality, PushBody, Shared, Update};
use zs_sample::{CongestionControl, Locality, QoSType, Text, ZBytes};

// A subscriber on these keys, for publications of any origin.
#[tactic(auto, using(crate::proofs::Takes::sub_takes))]
pub(crate) fn subscriber(alloc: Global, keys: &str) -> Result<Shared<Event>, AllocError>
    ensures { IfOk result (λ event. takes_handler event ≡ true) }
{
    let key = KeyArg::Text(Text::of(alloc, keys)?);
    let event = Event::Sub {
        origin: Locality::Any,
        key,
        to: Chan::Print,
    };
    let event = Shared::new(alloc, event)?;
    Ok(event)
}

// A put of a text on this key, for this session and the network.
pub(crate) fn put(alloc: Global, key: &str, text: &str) -> Result<Event, AllocError> {
    let key = KeyArg::Text(Text::of(alloc, key)?);
    let payload = ZBytes::from_str(alloc, text)?;
    let update = Update {
        body: PushBody::Put {
            payload,
            encoding: None,
        },
        timestamp: None,
        source: None,
        attachment: None,
    };
    let qos = QoSType {
        priority: 5,
        congestion: CongestionControl::Drop,
        express: false,
    };
    Ok(Event::Publish {
        destination: Locality::Any,
        key,
        update: Shared::new(alloc, update)?,
        quality: PublicationQuality {
            qos,
            reliable: true,
        },
    })
}
