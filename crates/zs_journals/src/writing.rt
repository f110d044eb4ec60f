//! Journals of sessions, written entry by entry.

ghost use Rattle.zs_journals.specs.Writing.{WritesJournal};

use std::alloc::Global;
use zs_keys::Sink;
use zs_recordings::{RecordError, write_entry};
use zs_session_cell::Entry;

/// Writes the recording of a journal: for each entry the line of its event, behind `>` and a tab, and then each line of its
/// turn, behind `<` and a tab. One text, which `alloc` gives, serves all entries.
///
/// # Errors
///
/// No line says the event of the entry in that place: then the entries before it are written, and nothing else. The sink
/// failed, or there was no memory: then a prefix of the recording is written.
pub fn write_recording<K: Sink>(
    alloc: Global,
    entries: &[Entry],
    sink: &mut K,
) -> Result<(), RecordError>
    ensures { WritesJournal entries.now result
        (record { written = K.written sink.old; faults = K.faults sink.old })
        (record { written = K.written sink.new; faults = K.faults sink.new }) }
{
    let mut memory = String::new(alloc);
    let mut written: u64 = 0;
    for entry in entries {
        written += 1;
        write_entry(
            &mut memory,
            written,
            entry.event.get(),
            entry.turn.get(),
            sink,
        )?;
    }
    Ok(())
}
