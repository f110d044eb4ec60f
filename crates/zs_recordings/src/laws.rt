//! Laws of recordings, for proofs to cite.

ghost use Rattle.zs_recordings.specs.Laws.{FrontsReplay, RecordingsReplay, RunsRecord, ScriptsAreReadable};

/// What a run that records puts out for the lines that it read is the recording of their events.
pub fn runs_record()
    ensures { RunsRecord }
{}

/// The recording of events that can be read back is played again as the same.
pub fn recordings_replay()
    ensures { RecordingsReplay }
{}

/// And so is the prefix of it that is the recording of the first of these events.
pub fn fronts_replay()
    ensures { FrontsReplay }
{}

/// The events of a script that was recorded can be read back where what comes of them has texts without tabs and line feeds.
pub fn scripts_are_readable()
    ensures { ScriptsAreReadable }
{}
