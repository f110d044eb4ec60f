//! What is recorded of an event, printed.

ghost use Rattle.std.specs.Prelude.{◌≡◌, ◌++◌, IfOk, OnOk};
ghost use Rattle.std.specs.String.{string_bytes};
ghost use Rattle.zs_event_lines.specs.Slots.{IsPrinted};
ghost use Rattle.zs_recordings.specs.Entries.{event_row, turn_rows};

use std::alloc::AllocError;
use zs_event_lines::append_event;
use zs_events::{Event, Turn};
use zs_script::{Margin, append_marked_turn};

/// Puts the line of an event, behind its mark, behind a text, and tells whether a line says the event. After an error, or
/// where none does, some of it may stand there.
#[tactic(auto, using(crate::proofs::Printed::printing))]
pub(crate) fn append_event_row(out: &mut String, event: &Event) -> Result<bool, AllocError>
    ensures { IfOk result (λ told. IsPrinted (event_row event.now) told (string_bytes out.old) (string_bytes out.new)) }
{
    out.push_str(">\t")?;
    let told = append_event(out, event)?;
    if !told {
        return Ok(false);
    }
    out.push('\n')?;
    Ok(true)
}

/// Puts the lines of a turn, each behind its mark, behind a text.
pub(crate) fn append_turn_rows(out: &mut String, number: u64, turn: &Turn) -> Result<(), AllocError>
    ensures { OnOk result (string_bytes out.new ≡ string_bytes out.old ++ turn_rows number turn.now) }
{
    let margin = Margin {
        before: "<\t",
        number,
        behind: "",
    };
    append_marked_turn(out, margin, turn)
}
