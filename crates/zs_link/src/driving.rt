//! Two linked sessions, driven by lines.

ghost use Rattle.std.specs.Prelude.{◌≡◌, ◌≤◌, ℕ, List, [], IsTrue};
ghost use Rattle.zs_keys.specs.Stream.{PutsOn};
ghost use Rattle.zs_core.specs.Settings.{is_valid};
ghost use Rattle.zs_driving.specs.Driving.{Drives, Completes};
ghost use Rattle.zs_link.specs.World.{AreNew};
ghost use Rattle.zs_link.specs.Mode.{link_task, Goes};

use crate::mode::LinkMachine;
use std::alloc::Global;
use zs_core::Settings;
use zs_driving::{DriveError, Driven, drive_lines};
use zs_keys::{Sink, Source};

/// Drives two linked sessions by lines: the first with these settings, the second with the identifier 2, the tag 2, and
/// else the same. At the end of input the first closes, and then the second, under one number.
///
/// # Errors
///
/// `ReadFault` and `WriteFault` where the source or the sink failed, `BadLine` and `LineTooLong` for the first line that
/// is none of the mode or too long, `OutOfTurns` where there were too many reads, and `NoMemory`. What was written is the
/// text of the earlier lines, or a prefix of it.
pub fn drive_link<S: Source, K: Sink>(
    alloc: Global,
    source: &mut S,
    sink: &mut K,
    settings: &Settings,
) -> Result<Driven, DriveError>
    requires { IsTrue (is_valid settings.now) }
    ensures drives { Drives (link_task settings.now) Goes result
        (record { left = S.left source.old; reads = S.reads source.old; pieces = S.pieces source.old; faults = S.faults source.old })
        (record { left = S.left source.new; reads = S.reads source.new; pieces = S.pieces source.new; faults = S.faults source.new })
        (record { written = K.written sink.old; faults = K.faults sink.old })
        (record { written = K.written sink.new; faults = K.faults sink.new })
        (λ output. PutsOn (K.written sink.old) output (K.written sink.new)) }
    ensures completes { Completes (link_task settings.now) result
        (record { left = S.left source.old; reads = S.reads source.old; pieces = S.pieces source.old; faults = S.faults source.old })
        (record { left = S.left source.new; reads = S.reads source.new; pieces = S.pieces source.new; faults = S.faults source.new })
        (record { written = K.written sink.old; faults = K.faults sink.old })
        (record { written = K.written sink.new; faults = K.faults sink.new }) }
{
    let mut machine = LinkMachine::new(alloc, settings)?;
    let driven = drive_machine(alloc, source, sink, settings, &mut machine);
    drop(machine);
    driven
}

/// It is `drive_link` over sessions that are lent.
fn drive_machine<S: Source, K: Sink>(
    alloc: Global,
    source: &mut S,
    sink: &mut K,
    settings: &Settings,
    machine: &mut LinkMachine,
) -> Result<Driven, DriveError>
    requires { AreNew machine.old.world settings.now }
    ensures drives { Drives (link_task settings.now) Goes result
        (record { left = S.left source.old; reads = S.reads source.old; pieces = S.pieces source.old; faults = S.faults source.old })
        (record { left = S.left source.new; reads = S.reads source.new; pieces = S.pieces source.new; faults = S.faults source.new })
        (record { written = K.written sink.old; faults = K.faults sink.old })
        (record { written = K.written sink.new; faults = K.faults sink.new })
        (λ output. PutsOn (K.written sink.old) output (K.written sink.new)) }
    ensures completes { Completes (link_task settings.now) result
        (record { left = S.left source.old; reads = S.reads source.old; pieces = S.pieces source.old; faults = S.faults source.old })
        (record { left = S.left source.new; reads = S.reads source.new; pieces = S.pieces source.new; faults = S.faults source.new })
        (record { written = K.written sink.old; faults = K.faults sink.old })
        (record { written = K.written sink.new; faults = K.faults sink.new }) }
{
    drive_lines(
        alloc,
        source,
        sink,
        settings.line_max,
        settings.turns,
        machine,
    )
}
