//! Lines of a word and parts.

ghost use Rattle.std.specs.Prelude.{◌≡◌, ◌++◌, IfOk, OnOk, Some, map, flat_map};
ghost use Rattle.std.specs.String.{string_bytes};
ghost use Rattle.zs_event_lines.specs.Slots.{slot_text, slots_say, slots_text, printed, IsPrinted};
ghost use Rattle.zs_event_lines.specs.Views.{slot_of};

use crate::fields::append_shown;
use crate::saying::says;
use crate::shown::Shown;
use std::alloc::AllocError;

/// Puts a line behind a text, if all of its parts can be said, and tells whether they can. After an error some of it may
/// stand there.
#[tactic(auto, using(crate::proofs::Joining::joining))]
pub(crate) fn append_line(
    out: &mut String,
    word: &str,
    parts: &[Shown<'_>],
) -> Result<bool, AllocError>
    ensures { IfOk result (λ told. IsPrinted (printed (Some (record { word = word.now; slots = map slot_of parts.now })))
        told (string_bytes out.old) (string_bytes out.new)) }
{
    if !all_say(parts) {
        return Ok(false);
    }
    out.push_str(word)?;
    append_parts(out, parts)?;
    Ok(true)
}

/// Whether all can be said.
fn all_say(parts: &[Shown<'_>]) -> bool
    ensures { result ≡ slots_say (map slot_of parts.now) }
{
    for part in parts {
        if !says(*part) {
            return false;
        }
    }
    true
}

/// The parts, one behind the other.
fn append_parts(out: &mut String, parts: &[Shown<'_>]) -> Result<(), AllocError>
    ensures { OnOk result (string_bytes out.new ≡ string_bytes out.old ++ slots_text (map slot_of parts.now)) }
{
    for part in parts {
        append_shown(out, *part)?;
    }
    Ok(())
}
