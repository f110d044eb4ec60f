//! A whole run of the program over a source and sinks, up to its exit status.
ghost use Rattle.std.specs.Prelude.{◌≡◌, ◌≢◌, ◌≤◌, ℕ, List, [], IsTrue};
ghost use Rattle.zs_keys.specs.Stream.{PutsOn};
ghost use Rattle.zs_core.specs.Settings.{is_valid, default_settings};
ghost use Rattle.zs_driving.specs.Driving.{Drives, Completes};
ghost use Rattle.zs_driving.specs.Statuses.{Complains};
ghost use Rattle.zs_replica.specs.Sides.{AreBehind};
ghost use Rattle.zs_replica.specs.Told.{first_links};
ghost use Rattle.zs_replica.specs.Language.{replica_task, Goes};
ghost use Rattle.zs_replica.specs.Running.{bad_words, Runs};
ghost use Rattle.zs_replica.specs.Laws.{RunsShowBest};
ghost use Rattle.zs_replica.specs.Gets.{RunsShowGets};

use crate::laws::{runs_show_best, runs_show_gets};
use crate::sides::Sides;
use std::alloc::Global;
use zs_core::Settings;
use zs_driving::{DriveError, Driven, complain, conclude, drive_lines};
use zs_keys::{Sink, Source};

/// The program: a replicated store on each of two linked sessions, driven by the source's lines, and the exit status.
///
/// There are no words. Each line is for one side, `a` or `b`, or delivers what waits at one; the answers and what the stores
/// and the gets have go to the sink. Both sessions have the default settings but for the identifier and the tag of the second.
///
/// Whatever lines were read, what `dump` shows of a side is at each key the greatest entry of what the side wrote and of what was
/// delivered to it of the other's writes, and no other key; where no push waits, both sides show the same. A get prints replies
/// in the line alone that delivers its final, and ends there: at each key that meets its own one reply, with the latest timestamp
/// of what its side had when it asked and of what the other one had when it took the request. Each request that is delivered and
/// not refused is answered in the line that delivers it, with its final.
///
/// The status is 0 at the end of input. 2 says that there are words; then nothing is read or written. 3 says that a line is
/// none of the program's, 4 that a line is too long, 5 that there were too many reads, 6 that the source failed, 7 that the
/// sink did, and 8 that there was no memory. A line that says so goes to `complaints`, whose own faults change nothing.
pub fn replica_run<S: Source, K: Sink, C: Sink>(
    alloc: Global,
    words: &[String],
    source: &mut S,
    sink: &mut K,
    complaints: &mut C,
) -> u8
    ensures words { words.now ≢ [] → (result ≡ 2) × (source.new ≡ source.old) × (sink.new ≡ sink.old)
        × Complains (record { written = C.written complaints.old; faults = C.faults complaints.old })
        (record { written = C.written complaints.new; faults = C.faults complaints.new }) bad_words }
    ensures only_words { result ≡ 2 → words.now ≢ [] }
    ensures runs { words.now ≡ [] → Runs default_settings result
        (record { left = S.left source.old; reads = S.reads source.old; pieces = S.pieces source.old; faults = S.faults source.old })
        (record { left = S.left source.new; reads = S.reads source.new; pieces = S.pieces source.new; faults = S.faults source.new })
        (record { written = K.written sink.old; faults = K.faults sink.old })
        (record { written = K.written sink.new; faults = K.faults sink.new })
        (record { written = C.written complaints.old; faults = C.faults complaints.old })
        (record { written = C.written complaints.new; faults = C.faults complaints.new }) }
    ensures quiet { result ≡ 0 → complaints.new ≡ complaints.old }
    ensures dumps { RunsShowBest }
    ensures gets { RunsShowGets }
{
    runs_show_best();
    runs_show_gets();
    if words.is_empty() {
        return run_default(alloc, source, sink, complaints);
    }
    complain(complaints, b"bad words\n");
    2
}

/// It is `replica_run` without words.
fn run_default<S: Source, K: Sink, C: Sink>(
    alloc: Global,
    source: &mut S,
    sink: &mut K,
    complaints: &mut C,
) -> u8
    ensures runs { Runs default_settings result
        (record { left = S.left source.old; reads = S.reads source.old; pieces = S.pieces source.old; faults = S.faults source.old })
        (record { left = S.left source.new; reads = S.reads source.new; pieces = S.pieces source.new; faults = S.faults source.new })
        (record { written = K.written sink.old; faults = K.faults sink.old })
        (record { written = K.written sink.new; faults = K.faults sink.new })
        (record { written = C.written complaints.old; faults = C.faults complaints.old })
        (record { written = C.written complaints.new; faults = C.faults complaints.new }) }
    ensures not_words { result ≢ 2 }
    ensures quiet { result ≡ 0 → complaints.new ≡ complaints.old }
{
    let settings = Settings::default();
    let status = run_with(alloc, &settings, source, sink, complaints);
    drop(settings);
    status
}

/// It is `run_default` with these settings.
#[tactic(auto, unfolding(crate::specs::Running::Runs))]
fn run_with<S: Source, K: Sink, C: Sink>(
    alloc: Global,
    settings: &Settings,
    source: &mut S,
    sink: &mut K,
    complaints: &mut C,
) -> u8
    requires { IsTrue (is_valid settings.now) }
    ensures runs { Runs settings.now result
        (record { left = S.left source.old; reads = S.reads source.old; pieces = S.pieces source.old; faults = S.faults source.old })
        (record { left = S.left source.new; reads = S.reads source.new; pieces = S.pieces source.new; faults = S.faults source.new })
        (record { written = K.written sink.old; faults = K.faults sink.old })
        (record { written = K.written sink.new; faults = K.faults sink.new })
        (record { written = C.written complaints.old; faults = C.faults complaints.old })
        (record { written = C.written complaints.new; faults = C.faults complaints.new }) }
    ensures not_words { result ≢ 2 }
    ensures quiet { result ≡ 0 → complaints.new ≡ complaints.old }
{
    let answer = drive_sides(alloc, source, sink, settings);
    conclude(complaints, answer)
}

/// Drives two new sides by lines.
fn drive_sides<S: Source, K: Sink>(
    alloc: Global,
    source: &mut S,
    sink: &mut K,
    settings: &Settings,
) -> Result<Driven, DriveError>
    requires { IsTrue (is_valid settings.now) }
    ensures drives { Drives (replica_task settings.now) Goes result
        (record { left = S.left source.old; reads = S.reads source.old; pieces = S.pieces source.old; faults = S.faults source.old })
        (record { left = S.left source.new; reads = S.reads source.new; pieces = S.pieces source.new; faults = S.faults source.new })
        (record { written = K.written sink.old; faults = K.faults sink.old })
        (record { written = K.written sink.new; faults = K.faults sink.new })
        (λ output. PutsOn (K.written sink.old) output (K.written sink.new)) }
    ensures completes { Completes (replica_task settings.now) result
        (record { left = S.left source.old; reads = S.reads source.old; pieces = S.pieces source.old; faults = S.faults source.old })
        (record { left = S.left source.new; reads = S.reads source.new; pieces = S.pieces source.new; faults = S.faults source.new })
        (record { written = K.written sink.old; faults = K.faults sink.old })
        (record { written = K.written sink.new; faults = K.faults sink.new }) }
{
    let mut sides = Sides::new(alloc, settings)?;
    let driven = drive_machine(alloc, source, sink, settings, &mut sides);
    drop(sides);
    driven
}

/// It is `drive_sides` over sides that are lent.
fn drive_machine<S: Source, K: Sink>(
    alloc: Global,
    source: &mut S,
    sink: &mut K,
    settings: &Settings,
    sides: &mut Sides,
) -> Result<Driven, DriveError>
    requires { AreBehind sides.old settings.now first_links }
    ensures drives { Drives (replica_task settings.now) Goes result
        (record { left = S.left source.old; reads = S.reads source.old; pieces = S.pieces source.old; faults = S.faults source.old })
        (record { left = S.left source.new; reads = S.reads source.new; pieces = S.pieces source.new; faults = S.faults source.new })
        (record { written = K.written sink.old; faults = K.faults sink.old })
        (record { written = K.written sink.new; faults = K.faults sink.new })
        (λ output. PutsOn (K.written sink.old) output (K.written sink.new)) }
    ensures completes { Completes (replica_task settings.now) result
        (record { left = S.left source.old; reads = S.reads source.old; pieces = S.pieces source.old; faults = S.faults source.old })
        (record { left = S.left source.new; reads = S.reads source.new; pieces = S.pieces source.new; faults = S.faults source.new })
        (record { written = K.written sink.old; faults = K.faults sink.old })
        (record { written = K.written sink.new; faults = K.faults sink.new }) }
{
    drive_lines(
        alloc,
        source,
        sink,
        settings.line_max,
        settings.turns,
        sides,
    )
}
