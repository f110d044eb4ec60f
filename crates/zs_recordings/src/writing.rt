//! Events and turns of whoever keeps them, written as recordings.

ghost use Rattle.std.specs.Prelude.{◌≡◌, ℕ, ◌≤◌, true, false, Err, OnOk};
ghost use Rattle.zs_keys.specs.Stream.{HasRisen, PutsOn};
ghost use Rattle.zs_lines.specs.Writing.{PutsFrontOn};
ghost use Rattle.zs_recordings.specs.Entries.{is_printable, entry_text};
ghost use Rattle.zs_recordings.specs.declared.error.RecordError.{RecordError};

use crate::entries::{append_event_row, append_turn_rows};
use crate::error::RecordError;
use zs_events::{Event, Turn};
use zs_keys::Sink;
use zs_lines::write_whole;

/// Writes what is recorded of an event with its turn. `number` is its place in the recording, from 1; it is printed in that
/// memory, which outlives the entries.
///
/// # Errors
///
/// No line says the event: then nothing is written. The sink failed: then a prefix of the entry is written. There was no
/// memory: then nothing is.
#[tactic(auto, using(crate::proofs::Written::writing))]
pub fn write_entry<K: Sink>(
    memory: &mut String,
    number: u64,
    event: &Event,
    turn: &Turn,
    sink: &mut K,
) -> Result<(), RecordError>
    ensures printable { OnOk result (is_printable event.now ≡ true) }
    ensures written { OnOk result (PutsOn (K.written sink.old) (entry_text number event.now turn.now) (K.written sink.new)) }
    ensures part { PutsFrontOn (K.written sink.old) (entry_text number event.now turn.now) (K.written sink.new) }
    ensures memory { result ≡ Err RecordError.NoMemory → sink.new ≡ sink.old }
    ensures unprintable { result ≡ Err (RecordError.Unprintable number) → (is_printable event.now ≡ false) × (sink.new ≡ sink.old) }
    ensures place { (other : ℕ) → result ≡ Err (RecordError.Unprintable other) → other ≡ number }
    ensures fault { result ≡ Err RecordError.WriteFault → HasRisen (K.faults sink.old) (K.faults sink.new) }
    ensures later { K.faults sink.old ≤ K.faults sink.new }
    ensures calm { OnOk result (K.faults sink.new ≡ K.faults sink.old) }
{
    memory.clear();
    let told = append_event_row(memory, event)?;
    if !told {
        return Err(RecordError::Unprintable(number));
    }
    append_turn_rows(memory, number, turn)?;
    write_whole(sink, memory.as_bytes())?;
    Ok(())
}
