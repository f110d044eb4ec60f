//! Which events ask queryables.
ghost use Rattle.std.specs.Prelude.{◌≡◌};
ghost use Rattle.zs_cell.specs.Further.{asks_queryables, is_request};

use zs_events::Event;
use zs_wire::Message;

/// Whether a message is a request: no other message asks queryables.
fn is_request(message: &Message) -> bool
    ensures { result ≡ is_request message.now }
{
    match message {
        Message::Request(_) => true,
        _ => false,
    }
}

/// Whether an event asks queryables, so that its turn may hand queries to handlers: a get, a get of a querier, or a request from
/// the network.
pub fn asks_queryables(event: &Event) -> bool
    ensures { result ≡ asks_queryables event.now }
{
    match event {
        Event::Get { .. } => true,
        Event::QuerierGet { .. } => true,
        Event::Net(message) => is_request(message.get()),
        _ => false,
    }
}
