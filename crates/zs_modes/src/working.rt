//! The mode in which callers put beside each other through one session, each on a thread of its own.

ghost use Rattle.std.specs.Prelude.{◌≡◌, ◌⊎◌, ◌≤◌, ◌++◌, map, Err, IfOk, IfErr, OnOk, IfSome};
ghost use Rattle.std.specs.String.{string_bytes};
ghost use Rattle.zs_keys.specs.Stream.{HasRisen, PutsOn};
ghost use Rattle.zs_lines.specs.Writing.{PutsFrontOn};
ghost use Rattle.zs_session.specs.Soak.{count_line};
ghost use Rattle.zs_workers.specs.Workers.{IsWorked};
ghost use Rattle.zs_modes.specs.Working.{callers_of, workers_of, worked_text, Reports};

use std::alloc::{AllocError, Global};
use std::sync::Wait;
use std::thread::Threads;
use zs_driving::DriveError;
use zs_keys::Sink;
use zs_lines::write_whole;
use zs_script::parse_number;
use zs_workers::{Worked, Workers, work};

/// The most callers.
const CALLERS_MAX: u64 = 64;

/// The most puts of a caller.
const PUTS_MAX: u64 = 10000;

/// How many callers a word names: from 1 on.
fn callers_of(word: &[u8]) -> Option<u64>
    ensures named { result ≡ callers_of word.now }
    ensures few { IfSome result (λ callers. callers ≤ 64) }
{
    match parse_number(CALLERS_MAX, word)? {
        0 => None,
        callers => Some(callers),
    }
}

/// The callers that words name: `workers K N`.
pub(crate) fn workers_of(words: &[String]) -> Option<Workers>
    ensures named { result ≡ workers_of (map string_bytes words.now) }
    ensures callers { IfSome result (λ workers. workers.callers ≤ 64) }
    ensures puts { IfSome result (λ workers. workers.puts ≤ 10000) }
{
    let [mode, callers, puts] = words else {
        return None;
    };
    if mode.as_str() != "workers" {
        return None;
    }
    let callers = callers_of(callers.as_bytes())?;
    let puts = parse_number(PUTS_MAX, puts.as_bytes())?;
    Some(Workers { callers, puts })
}

/// Lets callers put beside each other, and writes what that came to. An error leaves a prefix of it written.
///
/// # Errors
///
/// `WriteFault` where the sink failed, and `NoMemory`.
pub(crate) fn drive_workers<R: Wait + Threads + Sync, K: Sink>(
    rt: &R,
    alloc: Global,
    workers: Workers,
    sink: &mut K,
) -> Result<(), DriveError>
    requires callers { workers.callers ≤ 64 }
    requires puts { workers.puts ≤ 10000 }
    ensures whole { OnOk result (Reports workers (λ text. PutsOn (K.written sink.old) text (K.written sink.new))) }
    ensures part { (K.written sink.new ≡ K.written sink.old) ⊎ Reports workers (λ text. PutsFrontOn (K.written sink.old) text (K.written sink.new)) }
    ensures only { IfErr result (λ error. (error ≡ DriveError.WriteFault) ⊎ (error ≡ DriveError.NoMemory)) }
    ensures fault { result ≡ Err DriveError.WriteFault → HasRisen (K.faults sink.old) (K.faults sink.new) }
    ensures later { K.faults sink.old ≤ K.faults sink.new }
{
    let worked = work(rt, alloc, workers)?;
    let report = worked_text(alloc, worked)?;
    write_report(report, sink)
}

/// Writes a report, and lets it go. An error leaves a prefix of it written.
fn write_report<K: Sink>(report: String, sink: &mut K) -> Result<(), DriveError>
    ensures whole { OnOk result (PutsOn (K.written sink.old) (string_bytes report) (K.written sink.new)) }
    ensures part { PutsFrontOn (K.written sink.old) (string_bytes report) (K.written sink.new) }
    ensures only { IfErr result (λ error. error ≡ DriveError.WriteFault) }
    ensures fault { result ≡ Err DriveError.WriteFault → HasRisen (K.faults sink.old) (K.faults sink.new) }
    ensures later { K.faults sink.old ≤ K.faults sink.new }
{
    write_whole(sink, report.as_bytes())?;
    Ok(())
}

/// The report of a run: a line for each of its three counts.
fn worked_text(alloc: Global, worked: Worked) -> Result<String, AllocError>
    ensures { IfOk result (λ text. string_bytes text ≡ worked_text worked) }
{
    let mut text = String::new(alloc);
    append_count(&mut text, "entries", u128::from(worked.entries))?;
    append_count(&mut text, "shares", u128::from(worked.shares))?;
    append_count(&mut text, "handed", worked.handed)?;
    Ok(text)
}

/// The line of one count.
fn append_count(text: &mut String, name: &str, count: u128) -> Result<(), AllocError>
    ensures { OnOk result (string_bytes text.new ≡ string_bytes text.old ++ count_line name.now count) }
{
    writeln!(text, "{name}\t{count}")
}
