//! The loop over the lines of a source: read, take, write when due.
ghost use Rattle.std.specs.Prelude.{◌≡◌, ◌≤◌, ℕ, List, [], Option, IfErr, OnOk, OnErr};
ghost use Rattle.zs_keys.specs.Stream.{HasRisen, PutsOn};
ghost use Rattle.zs_lines.specs.Writing.{PutsFrontOn};
ghost use Rattle.zs_driving.specs.Tasks.{task_of, lines_behind};
ghost use Rattle.zs_driving.specs.Driving.{Drives, Completes, PutsWaiting};

use crate::errors::DriveError;
use crate::machine::LineMachine;
use crate::transcript::Transcript;
use std::alloc::Global;
use zs_keys::{Sink, Source};
use zs_lines::LineReader;

/// How far a run came.
#[derive(Clone, Copy, Debug, PartialEq, Eq)]
pub struct Driven {
    /// How many lines were taken, with the end of input as one more.
    pub events: u64,
}

/// Drives a machine by lines: it takes each line of the source, of at most `line_max` bytes, and then the end of input.
/// At most `turns` reads that give bytes are made. What the machine puts out is written to the sink: before each read
/// that may have to wait, at each return, and in between where much text has come together.
///
/// # Errors
///
/// `ReadFault` and `WriteFault` where the source or the sink failed, `BadLine` and `LineTooLong` for the first line that
/// the machine doesn't take or that is too long, `OutOfTurns` where there were too many reads, and `NoMemory`. What was
/// written is the text of the earlier lines, or a prefix of it.
pub fn drive_lines<M: LineMachine, S: Source, K: Sink>(
    alloc: Global,
    source: &mut S,
    sink: &mut K,
    line_max: u32,
    turns: u64,
    machine: &mut M,
) -> Result<Driven, DriveError>
    requires { M.took machine.old (M.rules machine.old) [] }
    ensures drives { Drives (task_of M.is_line (M.rules machine.old) line_max turns)
        (λ rows. M.closed machine.new (M.rules machine.old) (lines_behind [] rows)) result
        (record { left = S.left source.old; reads = S.reads source.old; pieces = S.pieces source.old; faults = S.faults source.old })
        (record { left = S.left source.new; reads = S.reads source.new; pieces = S.pieces source.new; faults = S.faults source.new })
        (record { written = K.written sink.old; faults = K.faults sink.old })
        (record { written = K.written sink.new; faults = K.faults sink.new })
        (λ output. PutsOn (K.written sink.old) output (K.written sink.new)) }
    ensures completes { Completes (task_of M.is_line (M.rules machine.old) line_max turns) result
        (record { left = S.left source.old; reads = S.reads source.old; pieces = S.pieces source.old; faults = S.faults source.old })
        (record { left = S.left source.new; reads = S.reads source.new; pieces = S.pieces source.new; faults = S.faults source.new })
        (record { written = K.written sink.old; faults = K.faults sink.old })
        (record { written = K.written sink.new; faults = K.faults sink.new }) }
{
    drive_to_end(alloc, source, sink, line_max, turns, machine)
}

/// It is `drive_lines` but for the clause that says when it succeeds.
fn drive_to_end<M: LineMachine, S: Source, K: Sink>(
    alloc: Global,
    source: &mut S,
    sink: &mut K,
    line_max: u32,
    turns: u64,
    machine: &mut M,
) -> Result<Driven, DriveError>
    requires { M.took machine.old (M.rules machine.old) [] }
    ensures { Drives (task_of M.is_line (M.rules machine.old) line_max turns)
        (λ rows. M.closed machine.new (M.rules machine.old) (lines_behind [] rows)) result
        (record { left = S.left source.old; reads = S.reads source.old; pieces = S.pieces source.old; faults = S.faults source.old })
        (record { left = S.left source.new; reads = S.reads source.new; pieces = S.pieces source.new; faults = S.faults source.new })
        (record { written = K.written sink.old; faults = K.faults sink.old })
        (record { written = K.written sink.new; faults = K.faults sink.new })
        (λ output. PutsOn (K.written sink.old) output (K.written sink.new)) }
{
    let mut transcript = Transcript::new(alloc);
    let outcome = take_lines(
        alloc,
        source,
        sink,
        line_max,
        turns,
        machine,
        &mut transcript,
    );
    transcript.write_to(sink)?;
    outcome
}

/// Writes what waits of the transcript, if the next line may have to be waited for or if much of it waits.
fn write_if_due<K: Sink>(
    transcript: &mut Transcript,
    sink: &mut K,
    holds_line: bool,
) -> Result<(), DriveError>
    ensures ok { OnOk result ((output : List ℕ) → (old : Option (List ℕ)) → PutsWaiting old transcript.old (K.written sink.old) output
        → PutsWaiting old transcript.new (K.written sink.new) output) }
    ensures err { OnErr result (transcript.new ≡ []) }
    ensures part { OnErr result (PutsFrontOn (K.written sink.old) transcript.old (K.written sink.new)) }
    ensures fault { OnErr result (HasRisen (K.faults sink.old) (K.faults sink.new)) }
    ensures only { IfErr result (λ error. error ≡ DriveError.WriteFault) }
    ensures later { K.faults sink.old ≤ K.faults sink.new }
    ensures calm { OnOk result (K.faults sink.new ≡ K.faults sink.old) }
{
    if holds_line && !transcript.is_full() {
        return Ok(());
    }
    transcript.write_to(sink)?;
    Ok(())
}

/// Has the machine take each line of the source, and then the end. What waits in the transcript at the end is still to
/// be written.
fn take_lines<M: LineMachine, S: Source, K: Sink>(
    alloc: Global,
    source: &mut S,
    sink: &mut K,
    line_max: u32,
    turns: u64,
    machine: &mut M,
    transcript: &mut Transcript,
) -> Result<Driven, DriveError>
    requires empty { transcript.old ≡ [] }
    requires fresh { M.took machine.old (M.rules machine.old) [] }
    ensures { Drives (task_of M.is_line (M.rules machine.old) line_max turns)
        (λ rows. M.closed machine.new (M.rules machine.old) (lines_behind [] rows)) result
        (record { left = S.left source.old; reads = S.reads source.old; pieces = S.pieces source.old; faults = S.faults source.old })
        (record { left = S.left source.new; reads = S.reads source.new; pieces = S.pieces source.new; faults = S.faults source.new })
        (record { written = K.written sink.old; faults = K.faults sink.old })
        (record { written = K.written sink.new; faults = K.faults sink.new })
        (PutsWaiting (K.written sink.old) transcript.new (K.written sink.new)) }
{
    let mut reader = LineReader::new(alloc, line_max, turns);
    let mut taken = 0;
    'lines: loop {
        write_if_due(transcript, sink, reader.holds_line())?;
        let Some(line) = reader.next(source)? else {
            break;
        };
        let is_line = machine.take(&line, transcript)?;
        if !is_line {
            return Err(DriveError::BadLine(line.number));
        }
        taken = line.number;
    }
    let Some(number) = taken.checked_add(1) else {
        return Err(DriveError::NoMemory);
    };
    machine.end(number, transcript)?;
    Ok(Driven { events: number })
}
