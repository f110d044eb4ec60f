//! Scripts recorded, and recordings replayed.

ghost use Rattle.std.specs.Prelude.{◌≡◌, List, [], false, Err, IsTrue, OnOk};
ghost use Rattle.zs_driving.specs.declared.errors.DriveError.{DriveError};
ghost use Rattle.zs_core.specs.Types.{Settings};
ghost use Rattle.zs_core.specs.Settings.{is_valid};
ghost use Rattle.zs_core.specs.Stands.{Stands};
ghost use Rattle.zs_recordings.specs.Recording.{Recorded};
ghost use Rattle.zs_recordings.specs.Replaying.{RecordingLine, Replays, answer_for, groups_of, is_headless};
ghost use Rattle.zs_recordings.specs.Machines.{Follows};

use crate::recorder::Recorder;
use crate::replayed::Replayed;
use crate::replayer::Replayer;
use std::alloc::Global;
use zs_core::Settings;
use zs_driving::{DriveError, Driven, drive_lines};
use zs_keys::{Sink, Source};

/// Records a script: each line of the source, to its end, is an event of a session, and the end closes the session. For
/// each event its line is written, behind `>` and a tab, and then each line of what came of it, behind `<` and a tab.
///
/// # Errors
///
/// `ReadFault` and `WriteFault` where the source or the sink failed, `BadLine` and `LineTooLong` for the first line that
/// is no event of the session or too long, `OutOfTurns` where there were too many reads, and `NoMemory`. What was written
/// is the recording of the earlier lines, or a prefix of it.
pub fn record<S: Source, K: Sink>(
    alloc: Global,
    source: &mut S,
    sink: &mut K,
    settings: &Settings,
) -> Result<Driven, DriveError>
    requires { IsTrue (is_valid settings.now) }
    ensures { Recorded settings.now result
        (record { left = S.left source.old; reads = S.reads source.old; pieces = S.pieces source.old; faults = S.faults source.old })
        (record { left = S.left source.new; reads = S.reads source.new; pieces = S.pieces source.new; faults = S.faults source.new })
        (record { written = K.written sink.old; faults = K.faults sink.old })
        (record { written = K.written sink.new; faults = K.faults sink.new }) }
{
    let mut recorder = Recorder::new(alloc, settings)?;
    let driven = drive_recorder(alloc, source, sink, settings, &mut recorder);
    drop(recorder);
    driven
}

/// It is `record` over a session that is lent.
fn drive_recorder<S: Source, K: Sink>(
    alloc: Global,
    source: &mut S,
    sink: &mut K,
    settings: &Settings,
    recorder: &mut Recorder,
) -> Result<Driven, DriveError>
    requires { Stands recorder.old.state settings.now [] }
    ensures { Recorded settings.now result
        (record { left = S.left source.old; reads = S.reads source.old; pieces = S.pieces source.old; faults = S.faults source.old })
        (record { left = S.left source.new; reads = S.reads source.new; pieces = S.pieces source.new; faults = S.faults source.new })
        (record { written = K.written sink.old; faults = K.faults sink.old })
        (record { written = K.written sink.new; faults = K.faults sink.new }) }
{
    drive_lines(
        alloc,
        source,
        sink,
        settings.line_max,
        settings.turns,
        recorder,
    )
}

/// Plays a recording again: the events of its `>` lines are taken by a new session, and what comes of each is compared
/// with the `<` lines behind it, which may hold any bytes. At the end `same` is written, with the number of events behind
/// a tab, or `differs`, with the first event, from 1, of which something else was recorded. The same is answered.
///
/// # Errors
///
/// `ReadFault` and `WriteFault` where the source or the sink failed, `LineTooLong` for the first line that is too long,
/// `BadLine` for the first line that is neither a `>` line with an event nor a `<` line, or else for the first one where
/// that is a `<` line, `OutOfTurns` where there were too many reads, and `NoMemory`. Nothing was written then, or a front
/// of that line.
pub fn replay<S: Source, K: Sink>(
    alloc: Global,
    source: &mut S,
    sink: &mut K,
    settings: &Settings,
) -> Result<Replayed, DriveError>
    requires { IsTrue (is_valid settings.now) }
    ensures { Replays settings.now result
        (record { left = S.left source.old; reads = S.reads source.old; pieces = S.pieces source.old; faults = S.faults source.old })
        (record { left = S.left source.new; reads = S.reads source.new; pieces = S.pieces source.new; faults = S.faults source.new })
        (record { written = K.written sink.old; faults = K.faults sink.old })
        (record { written = K.written sink.new; faults = K.faults sink.new }) }
{
    let mut replayer = Replayer::new(alloc, settings)?;
    let replayed = drive_replayer(alloc, source, sink, settings, &mut replayer);
    drop(replayer);
    replayed
}

/// It is `replay` over a session that is lent.
fn drive_replayer<S: Source, K: Sink>(
    alloc: Global,
    source: &mut S,
    sink: &mut K,
    settings: &Settings,
    replayer: &mut Replayer,
) -> Result<Replayed, DriveError>
    requires follows { Follows replayer.old settings.now [] }
    requires headless { replayer.old.headless ≡ false }
    ensures { Replays settings.now result
        (record { left = S.left source.old; reads = S.reads source.old; pieces = S.pieces source.old; faults = S.faults source.old })
        (record { left = S.left source.new; reads = S.reads source.new; pieces = S.pieces source.new; faults = S.faults source.new })
        (record { written = K.written sink.old; faults = K.faults sink.old })
        (record { written = K.written sink.new; faults = K.faults sink.new }) }
{
    let driven = drive_lines(
        alloc,
        source,
        sink,
        settings.line_max,
        settings.turns,
        replayer,
    );
    answer_of(driven, replayer)
}

/// What is answered where a run over a recording ends.
fn answer_of(
    driven: Result<Driven, DriveError>,
    replayer: &Replayer,
) -> Result<Replayed, DriveError>
    ensures done { OnOk driven ((s : Settings) (h : List RecordingLine) → Follows replayer.now s (groups_of h)
        → replayer.now.headless ≡ is_headless h → result ≡ answer_for s h) }
    ensures stopped { (error : DriveError) → driven ≡ Err error → result ≡ Err error }
{
    match driven {
        Ok(_) if replayer.is_headless() => Err(DriveError::BadLine(1)),
        Ok(_) => Ok(replayer.outcome()),
        Err(error) => Err(error),
    }
}
