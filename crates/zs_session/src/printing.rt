//! What came of an event or a read, printed onto a transcript.

ghost use Rattle.std.specs.Prelude.{◌≡◌, ◌++◌, OnOk, OnErr};
ghost use Rattle.zs_printing.specs.Printing.{line, turn_text, received_fields};

use std::alloc::AllocError;
use zs_core::{HandOver, Turn};
use zs_driving::Transcript;
use zs_events::Received;
use zs_script::{append_received, append_turn};

/// Adds the lines of a turn, printed in that memory, which outlives the events.
pub(crate) fn add_turn(
    memory: &mut String,
    transcript: &mut Transcript,
    number: u64,
    turn: &Turn,
) -> Result<(), AllocError>
    ensures ok { OnOk result (transcript.new ≡ transcript.old ++ turn_text number turn.now) }
    ensures err { OnErr result (transcript.new ≡ transcript.old) }
{
    memory.clear();
    append_turn(memory, number, turn)?;
    transcript.add(memory.as_str())
}

/// Adds the line of what a read was answered.
pub(crate) fn add_received(
    memory: &mut String,
    transcript: &mut Transcript,
    number: u64,
    received: &Received<HandOver>,
) -> Result<(), AllocError>
    ensures ok { OnOk result (transcript.new ≡ transcript.old ++ line number (received_fields received.now)) }
    ensures err { OnErr result (transcript.new ≡ transcript.old) }
{
    memory.clear();
    append_received(memory, number, received)?;
    transcript.add(memory.as_str())
}
