//! One session, driven by a script.

ghost use Rattle.std.specs.Prelude.{◌≡◌, ◌≤◌, ℕ, List, [], IsTrue};
ghost use Rattle.zs_keys.specs.Stream.{PutsOn};
ghost use Rattle.zs_core.specs.Settings.{is_valid};
ghost use Rattle.zs_session.specs.Driving.{Drives, Completes};
ghost use Rattle.zs_session.specs.Scripted.{StandsFor};

use crate::scripted::ScriptedSession;
use crate::spelling::spell_aggregates;
use std::alloc::Global;
use zs_core::Settings;
use zs_driving::{DriveError, Driven, drive_lines};
use zs_keys::{Sink, Source};

/// Drives a session by a script: each line of the source, to its end, is one event or one read of a channel, and the end
/// itself is an event, which closes the session. What comes of them is written to the sink: before each read that may
/// have to wait, at each return, and in between where much text has come together.
///
/// # Errors
///
/// `ReadFault` and `WriteFault` where the source or the sink failed, `BadLine` and `LineTooLong` for the first line that
/// is no event or too long, `OutOfTurns` where there were too many reads, and `NoMemory`. What was written is the
/// text of the earlier lines, or a prefix of it.
pub fn drive<S: Source, K: Sink>(
    alloc: Global,
    source: &mut S,
    sink: &mut K,
    settings: &Settings,
) -> Result<Driven, DriveError>
    requires { IsTrue (is_valid settings.now) }
    ensures drives { Drives settings.now result
        (record { left = S.left source.old; reads = S.reads source.old; pieces = S.pieces source.old; faults = S.faults source.old })
        (record { left = S.left source.new; reads = S.reads source.new; pieces = S.pieces source.new; faults = S.faults source.new })
        (record { written = K.written sink.old; faults = K.faults sink.old })
        (record { written = K.written sink.new; faults = K.faults sink.new })
        (λ output. PutsOn (K.written sink.old) output (K.written sink.new)) }
    ensures completes { Completes settings.now result
        (record { left = S.left source.old; reads = S.reads source.old; pieces = S.pieces source.old; faults = S.faults source.old })
        (record { left = S.left source.new; reads = S.reads source.new; pieces = S.pieces source.new; faults = S.faults source.new })
        (record { written = K.written sink.old; faults = K.faults sink.old })
        (record { written = K.written sink.new; faults = K.faults sink.new }) }
{
    let mut session = ScriptedSession::new(alloc, settings)?;
    let driven = drive_session(alloc, source, sink, settings, &mut session);
    drop(session);
    driven
}

/// It is `drive` over a session that is lent.
fn drive_session<S: Source, K: Sink>(
    alloc: Global,
    source: &mut S,
    sink: &mut K,
    settings: &Settings,
    session: &mut ScriptedSession,
) -> Result<Driven, DriveError>
    requires { StandsFor session.old settings.now [] }
    ensures drives { Drives settings.now result
        (record { left = S.left source.old; reads = S.reads source.old; pieces = S.pieces source.old; faults = S.faults source.old })
        (record { left = S.left source.new; reads = S.reads source.new; pieces = S.pieces source.new; faults = S.faults source.new })
        (record { written = K.written sink.old; faults = K.faults sink.old })
        (record { written = K.written sink.new; faults = K.faults sink.new })
        (λ output. PutsOn (K.written sink.old) output (K.written sink.new)) }
    ensures completes { Completes settings.now result
        (record { left = S.left source.old; reads = S.reads source.old; pieces = S.pieces source.old; faults = S.faults source.old })
        (record { left = S.left source.new; reads = S.reads source.new; pieces = S.pieces source.new; faults = S.faults source.new })
        (record { written = K.written sink.old; faults = K.faults sink.old })
        (record { written = K.written sink.new; faults = K.faults sink.new }) }
{
    spell_aggregates(settings);
    drive_lines(
        alloc,
        source,
        sink,
        settings.line_max,
        settings.turns,
        session,
    )
}
