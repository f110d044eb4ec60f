//! The events of a run.
ghost use Rattle.std.specs.Prelude.{◌≡◌, ◌++◌, true, false, None, IfOk, codes, decimal};
ghost use Rattle.zs_turns.specs.Gates.{takes_handler};
ghost use Rattle.zs_cell.specs.Further.{asks_queryables};

use std::alloc::{AllocError, Global};
use zs_events::{Chan, Event, KeyArg, PublicationQuality, PushBody, Shared, Update};
use zs_sample::{CongestionControl, Locality, QoSType, Text, ZBytes};

/// A subscriber is declared, to whatever the callers put.
#[tactic(auto, unfolding(zs_turns::specs::Gates::takes_handler))]
pub(crate) fn subscription(alloc: Global) -> Result<Event, AllocError>
    ensures takes { IfOk result (λ event. takes_handler event ≡ true) }
    ensures asks { IfOk result (λ event. asks_queryables event ≡ false) }
{
    let key = Text::of(alloc, "w/*")?;
    Ok(Event::Sub {
        origin: Locality::Any,
        key: KeyArg::Text(key),
        to: Chan::Print,
    })
}

// The key on which the caller of that number puts.
fn key_of(alloc: Global, number: u64) -> Result<KeyArg, AllocError> {
    let text = format!(in alloc; "w/{number}")?;
    Ok(KeyArg::Text(Text::of(alloc, text.as_str())?))
}

// A put of no bytes, of which nothing else is said.
fn update(alloc: Global) -> Result<Shared<Update>, AllocError> {
    Shared::new(
        alloc,
        Update {
            body: PushBody::Put {
                payload: ZBytes::new(),
                encoding: None,
            },
            timestamp: None,
            source: None,
            attachment: None,
        },
    )
}

/// The caller of that number puts.
pub(crate) fn publication(alloc: Global, number: u64) -> Result<Event, AllocError>
    ensures { IfOk result (λ event. asks_queryables event ≡ false) }
{
    let key = key_of(alloc, number)?;
    let update = update(alloc)?;
    Ok(Event::Publish {
        destination: Locality::Any,
        key,
        update,
        quality: PublicationQuality {
            qos: QoSType {
                priority: 5,
                congestion: CongestionControl::Drop,
                express: false,
            },
            reliable: true,
        },
    })
}
