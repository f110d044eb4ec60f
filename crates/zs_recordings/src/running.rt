//! The program: its words, and its exit status.

ghost use Rattle.std.specs.Prelude.{◌≡◌, ◌≢◌, map, Some, None};
ghost use Rattle.std.specs.String.{string_bytes};
ghost use Rattle.zs_core.specs.Settings.{default_settings};
ghost use Rattle.zs_driving.specs.Statuses.{Complains};
ghost use Rattle.zs_recordings.specs.Running.{bad_words, mode_named, mode_of, RecordsTo, ReplaysTo, replay_status, ComplainsOfReplay};

use crate::driving::{record, replay};
use crate::replayed::Replayed;
use std::alloc::Global;
use zs_core::Settings;
use zs_driving::{DriveError, complain, conclude};
use zs_keys::{Sink, Source};

/// What the program is to do.
#[derive(Clone, Copy, Debug, PartialEq, Eq)]
pub enum Mode {
    /// To record a script.
    Record,
    /// To play a recording again.
    Replay,
}

/// The program: records the source's script with the word `record`, and plays the source's recording again with the word
/// `replay`, by a session with the default settings. Returns the exit status.
///
/// The status is 0 at the end of a script, and of a recording that says of each event what comes of it; 1 at the end of one
/// that differs. 2 says that the words are others; then nothing is read or written. 3 says that a line is none of a script,
/// or of a recording, 4 that a line is too long, 5 that there were too many reads, 6 that the source failed, 7 that the sink
/// did, and 8 that there was no memory. A line that says so goes to `complaints`, whose own faults change nothing.
pub fn record_run<S: Source, K: Sink, C: Sink>(
    alloc: Global,
    words: &[String],
    source: &mut S,
    sink: &mut K,
    complaints: &mut C,
) -> u8
    ensures words { mode_of (map string_bytes words.now) ≡ None
        → (result ≡ 2) × (source.new ≡ source.old) × (sink.new ≡ sink.old) × Complains (record { written = C.written complaints.old; faults = C.faults complaints.old })
        (record { written = C.written complaints.new; faults = C.faults complaints.new }) bad_words }
    ensures only_words { result ≡ 2 → mode_of (map string_bytes words.now) ≡ None }
    ensures records { mode_of (map string_bytes words.now) ≡ Some Mode.Record → RecordsTo result
        (record { left = S.left source.old; reads = S.reads source.old; pieces = S.pieces source.old; faults = S.faults source.old })
        (record { left = S.left source.new; reads = S.reads source.new; pieces = S.pieces source.new; faults = S.faults source.new })
        (record { written = K.written sink.old; faults = K.faults sink.old })
        (record { written = K.written sink.new; faults = K.faults sink.new })
        (record { written = C.written complaints.old; faults = C.faults complaints.old })
        (record { written = C.written complaints.new; faults = C.faults complaints.new }) }
    ensures replays { mode_of (map string_bytes words.now) ≡ Some Mode.Replay → ReplaysTo result
        (record { left = S.left source.old; reads = S.reads source.old; pieces = S.pieces source.old; faults = S.faults source.old })
        (record { left = S.left source.new; reads = S.reads source.new; pieces = S.pieces source.new; faults = S.faults source.new })
        (record { written = K.written sink.old; faults = K.faults sink.old })
        (record { written = K.written sink.new; faults = K.faults sink.new })
        (record { written = C.written complaints.old; faults = C.faults complaints.old })
        (record { written = C.written complaints.new; faults = C.faults complaints.new }) }
{
    match mode_of(words) {
        Some(Mode::Record) => run_record(alloc, source, sink, complaints),
        Some(Mode::Replay) => run_replay(alloc, source, sink, complaints),
        None => {
            complain(complaints, b"bad words\n");
            2
        }
    }
}

/// What the words ask for, if they are the program's.
fn mode_of(words: &[String]) -> Option<Mode>
    ensures { result ≡ mode_of (map string_bytes words.now) }
{
    match words {
        [word] => mode_named(word.as_str()),
        _ => None,
    }
}

/// The mode of a word: `record` and `replay` name one.
fn mode_named(word: &str) -> Option<Mode>
    ensures { result ≡ mode_named word.now }
{
    match word {
        "record" => Some(Mode::Record),
        "replay" => Some(Mode::Replay),
        _ => None,
    }
}

/// Records, complains where that stopped before the end of the script, and returns the exit status.
fn run_record<S: Source, K: Sink, C: Sink>(
    alloc: Global,
    source: &mut S,
    sink: &mut K,
    complaints: &mut C,
) -> u8
    ensures records { RecordsTo result
        (record { left = S.left source.old; reads = S.reads source.old; pieces = S.pieces source.old; faults = S.faults source.old })
        (record { left = S.left source.new; reads = S.reads source.new; pieces = S.pieces source.new; faults = S.faults source.new })
        (record { written = K.written sink.old; faults = K.faults sink.old })
        (record { written = K.written sink.new; faults = K.faults sink.new })
        (record { written = C.written complaints.old; faults = C.faults complaints.old })
        (record { written = C.written complaints.new; faults = C.faults complaints.new }) }
    ensures not_words { result ≢ 2 }
{
    let answer = record(alloc, source, sink, &Settings::default());
    conclude(complaints, answer)
}

/// Replays, complains where that stopped before the end of the recording, and returns the exit status.
fn run_replay<S: Source, K: Sink, C: Sink>(
    alloc: Global,
    source: &mut S,
    sink: &mut K,
    complaints: &mut C,
) -> u8
    ensures replays { ReplaysTo result
        (record { left = S.left source.old; reads = S.reads source.old; pieces = S.pieces source.old; faults = S.faults source.old })
        (record { left = S.left source.new; reads = S.reads source.new; pieces = S.pieces source.new; faults = S.faults source.new })
        (record { written = K.written sink.old; faults = K.faults sink.old })
        (record { written = K.written sink.new; faults = K.faults sink.new })
        (record { written = C.written complaints.old; faults = C.faults complaints.old })
        (record { written = C.written complaints.new; faults = C.faults complaints.new }) }
    ensures not_words { result ≢ 2 }
{
    let answer = replay(alloc, source, sink, &Settings::default());
    conclude_replay(complaints, answer)
}

/// The exit status for an answer of a replay, with a complaint where it is an error.
fn conclude_replay<C: Sink>(complaints: &mut C, answer: Result<Replayed, DriveError>) -> u8
    ensures status { result ≡ replay_status answer }
    ensures complains { ComplainsOfReplay answer (record { written = C.written complaints.old; faults = C.faults complaints.old })
        (record { written = C.written complaints.new; faults = C.faults complaints.new }) }
    ensures not_words { result ≢ 2 }
{
    match answer {
        Ok(Replayed::Same(_)) => 0,
        Ok(Replayed::Differs(_)) => 1,
        Err(error) => conclude(complaints, Err(error)),
    }
}
