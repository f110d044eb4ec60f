//! What a script can have happen: events of a session, and reads of its channels.
use crate::event::Event;
use crate::turn::Kind;

/// What a line of a script says.
#[derive(Debug, Drop)]
pub enum ScriptEvent {
    /// Something happens to the session.
    Core(Event),
    /// The application takes the first item of the channel that was declared for that kind and number.
    Recv { kind: Kind, number: u32 },
}
