//! Laws of what is recorded and played again, for proofs to cite.

ghost use Rattle.zs_replays.specs.Laws.{RunsReplay, ScriptsReplay};

/// The recording of a script, each line of which is an event that can be recorded, is played again as the same, where what
/// is recorded of each event is UTF-8 text. So is each prefix of it that is the recording of the first of these events.
pub fn scripts_replay()
    ensures { ScriptsReplay }
{}

/// What a run put out that recorded a script to its end is played again as the same, with as many events.
pub fn runs_replay()
    ensures { RunsReplay }
{}
