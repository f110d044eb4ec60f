//! The program: its words, and what each makes it do.

ghost use Rattle.std.specs.Prelude.{◌≡◌, ◌≢◌, ◌≤◌, map, Some, None};
ghost use Rattle.std.specs.String.{string_bytes};
ghost use Rattle.zs_core.specs.Types.{Settings};
ghost use Rattle.zs_driving.specs.Statuses.{Complains};
ghost use Rattle.zs_session.specs.Running.{bad_words, Runs, Links, Hands, Soaks};
ghost use Rattle.zs_session.specs.Soak.{soak_of};
ghost use Rattle.zs_session.specs.Words.{settings_of, link_of};
ghost use Rattle.zs_workers.specs.declared.tally.Workers.{Workers};
ghost use Rattle.zs_modes.specs.Working.{workers_of, Works};

use crate::working::{drive_workers, workers_of};
use std::alloc::Global;
use std::sync::Wait;
use std::thread::Threads;
use zs_driving::conclude;
use zs_keys::{Sink, Source};
use zs_workers::Workers;

/// The program: it drives a session by the source's script, with the settings that the words give, or does what another
/// of its modes does, and returns the exit status.
///
/// The words are those of `zs_session::run`, which says what they make it do, or they are `workers K N`. Then nothing is
/// read: K callers put N times each through one session with the default settings, each on a thread of its own, and three
/// lines tell, once all have ended and the session was closed, how many entries its journal has, how many events the
/// callers count together, and how many samples the journal's turns hand to the session's subscriber.
///
/// The status is 0 where the mode did all of it. 2 says that the words are others, or give settings that are not valid;
/// then nothing is read or written. 3 says that a line is no event, 4 that a line is too long, 5 that there were too many
/// reads, 6 that the source failed, 7 that the sink did, and 8 that there was no memory. A line that says so goes to
/// `complaints`, whose own faults change nothing.
pub fn run<R: Wait + Threads + Sync, S: Source, K: Sink, C: Sink>(
    rt: &R,
    alloc: Global,
    words: &[String],
    source: &mut S,
    sink: &mut K,
    complaints: &mut C,
) -> u8
    ensures words { settings_of (map string_bytes words.now) ≡ None → soak_of (map string_bytes words.now) ≡ None → link_of (map string_bytes words.now) ≡ None
        → workers_of (map string_bytes words.now) ≡ None
        → (result ≡ 2) × (source.new ≡ source.old) × (sink.new ≡ sink.old) × Complains (record { written = C.written complaints.old; faults = C.faults complaints.old })
        (record { written = C.written complaints.new; faults = C.faults complaints.new }) bad_words }
    ensures only_words { result ≡ 2 → (settings_of (map string_bytes words.now) ≡ None) × (soak_of (map string_bytes words.now) ≡ None) × (link_of (map string_bytes words.now) ≡ None)
        × (workers_of (map string_bytes words.now) ≡ None) }
    ensures runs { (s : Settings) → settings_of (map string_bytes words.now) ≡ Some s → Runs s result
        (record { left = S.left source.old; reads = S.reads source.old; pieces = S.pieces source.old; faults = S.faults source.old })
        (record { left = S.left source.new; reads = S.reads source.new; pieces = S.pieces source.new; faults = S.faults source.new })
        (record { written = K.written sink.old; faults = K.faults sink.old })
        (record { written = K.written sink.new; faults = K.faults sink.new })
        (record { written = C.written complaints.old; faults = C.faults complaints.old })
        (record { written = C.written complaints.new; faults = C.faults complaints.new }) }
    ensures soaks { (soak : _) → soak_of (map string_bytes words.now) ≡ Some soak → (source.new ≡ source.old) × Soaks soak result
        (record { written = K.written sink.old; faults = K.faults sink.old })
        (record { written = K.written sink.new; faults = K.faults sink.new })
        (record { written = C.written complaints.old; faults = C.faults complaints.old })
        (record { written = C.written complaints.new; faults = C.faults complaints.new }) }
    ensures links { (s : Settings) → link_of (map string_bytes words.now) ≡ Some s → Links s result
        (record { left = S.left source.old; reads = S.reads source.old; pieces = S.pieces source.old; faults = S.faults source.old })
        (record { left = S.left source.new; reads = S.reads source.new; pieces = S.pieces source.new; faults = S.faults source.new })
        (record { written = K.written sink.old; faults = K.faults sink.old })
        (record { written = K.written sink.new; faults = K.faults sink.new })
        (record { written = C.written complaints.old; faults = C.faults complaints.old })
        (record { written = C.written complaints.new; faults = C.faults complaints.new }) }
    ensures hands { (s : Settings) → link_of (map string_bytes words.now) ≡ Some s → Hands s }
    ensures works { (workers : Workers) → workers_of (map string_bytes words.now) ≡ Some workers → (source.new ≡ source.old) × Works workers result
        (record { written = K.written sink.old; faults = K.faults sink.old })
        (record { written = K.written sink.new; faults = K.faults sink.new })
        (record { written = C.written complaints.old; faults = C.faults complaints.old })
        (record { written = C.written complaints.new; faults = C.faults complaints.new }) }
    ensures quiet { result ≡ 0 → complaints.new ≡ complaints.old }
{
    match workers_of(words) {
        Some(workers) => run_workers(rt, alloc, workers, sink, complaints),
        None => zs_session::run(alloc, words, source, sink, complaints),
    }
}

/// Lets callers put beside each other, writes what that came to, complains where it could not, and returns the exit status.
/// It is `run` behind such words.
fn run_workers<R: Wait + Threads + Sync, K: Sink, C: Sink>(
    rt: &R,
    alloc: Global,
    workers: Workers,
    sink: &mut K,
    complaints: &mut C,
) -> u8
    requires callers { workers.callers ≤ 64 }
    requires puts { workers.puts ≤ 10000 }
    ensures works { Works workers result (record { written = K.written sink.old; faults = K.faults sink.old })
        (record { written = K.written sink.new; faults = K.faults sink.new })
        (record { written = C.written complaints.old; faults = C.faults complaints.old })
        (record { written = C.written complaints.new; faults = C.faults complaints.new }) }
    ensures not_words { result ≢ 2 }
    ensures quiet { result ≡ 0 → complaints.new ≡ complaints.old }
{
    match drive_workers(rt, alloc, workers, sink) {
        Ok(()) => 0,
        Err(error) => conclude(complaints, Err(error)),
    }
}
