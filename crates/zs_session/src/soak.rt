//! The mode that drives a session by a script of its own making, and counts what is printed.

ghost use Rattle.std.specs.Prelude.{◌≡◌, ◌⊎◌, ◌+◌, ◌<◌, ◌≤◌, ◌==◌, ◌++◌, [], length, drop, map, option_map, Err, IfOk, IfErr, OnOk, IfSome};
ghost use Rattle.std.specs.List.{after_first, position};
ghost use Rattle.std.specs.String.{string_bytes};
ghost use Rattle.zs_keys.specs.Stream.{HasRisen, PutsOn};
ghost use Rattle.zs_lines.specs.Lines.{lines};
ghost use Rattle.zs_printing.specs.Words.{byte_digits};
ghost use Rattle.zs_lines.specs.Writing.{PutsFrontOn};
ghost use Rattle.zs_session.specs.Script.{script, text};
ghost use Rattle.zs_core.specs.Settings.{default_settings};
ghost use Rattle.zs_session.specs.Soak.{soak_of, put_line, put_lines, soak_script, tally_of, run_tally, count_line, tally_text, soak_report, lines_from};

use crate::driving::drive;
use std::alloc::{AllocError, Global};
use zs_core::Settings;
use zs_driving::DriveError;
use zs_keys::{MemorySink, Sink, SteadySource};
use zs_lines::write_whole;
use zs_script::parse_number;

/// The greatest seed.
const SEED_MAX: u64 = 65536;

/// The most puts.
const PUTS_MAX: u64 = 100000;

/// The lines before the puts: eight keys, and subscribers below six of them.
const DECLARATIONS: &str =
    "key\tk/0\nkey\tk/1\nkey\tk/2\nkey\tk/3\nkey\tk/4\nkey\tk/5\nkey\tk/6\nkey\tk/7\n\
sub\tany\tk/0/*\nsub\tany\tk/1/*\nsub\tany\tk/2/*\nsub\tany\tk/3/*\nsub\tany\tk/4/*\nsub\tany\tk/5/*\n";

/// Which script is made.
#[derive(Clone, Copy)]
pub(crate) struct Soak {
    /// What the numbers of the puts begin with.
    pub(crate) seed: u64,
    /// How many puts there are.
    pub(crate) puts: u64,
}

/// What a run came to.
#[derive(Clone, Copy)]
pub(crate) struct Tally {
    events: u64,
    handed: u64,
    sent: u64,
    refused: u64,
}

/// The script that words name: `soak SEED N`.
pub(crate) fn soak_of(words: &[String]) -> Option<Soak>
    ensures named { result ≡ soak_of (map string_bytes words.now) }
    ensures small { IfSome result (λ soak. soak.seed ≤ 65536) }
{
    let [mode, seed, puts] = words else {
        return None;
    };
    if mode.as_str() != "soak" {
        return None;
    }
    let seed = parse_number(SEED_MAX, seed.as_bytes())?;
    let puts = parse_number(PUTS_MAX, puts.as_bytes())?;
    Some(Soak { seed, puts })
}

/// Drives a session by such a script, and writes what that came to. An error leaves a prefix of it written.
///
/// # Errors
///
/// `WriteFault` where the sink failed, and `NoMemory`.
pub(crate) fn drive_soak<K: Sink>(alloc: Global, soak: Soak, sink: &mut K) -> Result<(), DriveError>
    requires { soak.seed ≤ 65536 }
    ensures whole { OnOk result (PutsOn (K.written sink.old) (soak_report soak) (K.written sink.new)) }
    ensures part { PutsFrontOn (K.written sink.old) (soak_report soak) (K.written sink.new) }
    ensures only { IfErr result (λ error. (error ≡ DriveError.WriteFault) ⊎ (error ≡ DriveError.NoMemory)) }
    ensures fault { result ≡ Err DriveError.WriteFault → HasRisen (K.faults sink.old) (K.faults sink.new) }
    ensures later { K.faults sink.old ≤ K.faults sink.new }
{
    let report = report(alloc, soak)?;
    write_whole(sink, report.as_bytes())?;
    Ok(())
}

/// What a run over such a script comes to, as it is printed.
#[tactic(auto, unfolding(crate::specs::Soak::soak_report))]
fn report(alloc: Global, soak: Soak) -> Result<String, AllocError>
    requires { soak.seed ≤ 65536 }
    ensures { IfOk result (λ report. string_bytes report ≡ soak_report soak) }
{
    let tally = count_run(alloc, soak)?;
    tally_text(alloc, tally)
}

/// The report of a run: a line for each of its four counts.
fn tally_text(alloc: Global, tally: Tally) -> Result<String, AllocError>
    ensures { IfOk result (λ text. string_bytes text ≡ tally_text tally) }
{
    let mut text = String::new(alloc);
    append_count(&mut text, "events", tally.events)?;
    append_count(&mut text, "handed", tally.handed)?;
    append_count(&mut text, "sent", tally.sent)?;
    append_count(&mut text, "refused", tally.refused)?;
    Ok(text)
}

/// The line of one count.
fn append_count(text: &mut String, name: &str, count: u64) -> Result<(), AllocError>
    ensures { OnOk result (string_bytes text.new ≡ string_bytes text.old ++ count_line name.now count) }
{
    writeln!(text, "{name}\t{count}")
}

/// Drives a session by such a script, in memory, and counts what it prints.
fn count_run(alloc: Global, soak: Soak) -> Result<Tally, AllocError>
    requires { soak.seed ≤ 65536 }
    ensures { IfOk result (λ tally. tally ≡ run_tally (soak_script soak)) }
{
    let mut source = SteadySource::new(script(alloc, soak)?.into_bytes());
    let mut sink = MemorySink::new(alloc, usize::MAX, Vec::new(alloc), Vec::new(alloc));
    count_driven(alloc, &mut source, &mut sink)
}

/// Drives a session by all that the source holds, and counts what it prints.
#[tactic(auto, unfolding(crate::specs::Soak::run_tally))]
fn count_driven(
    alloc: Global,
    source: &mut SteadySource,
    sink: &mut MemorySink,
) -> Result<Tally, AllocError>
    requires { sink.old.written ≡ [] }
    ensures { IfOk result (λ tally. tally ≡ run_tally source.old.left) }
{
    let events = drive_in_memory(alloc, source, sink)?;
    Ok(tally_of(events, sink.bytes()))
}

/// Drives a session by all that the source holds, and returns how many events there were. A script that is made has no
/// line that is no event, and neither the source nor the sink has a fault of its own: what stops it is want of memory.
fn drive_in_memory(
    alloc: Global,
    source: &mut SteadySource,
    sink: &mut MemorySink,
) -> Result<u64, AllocError>
    requires { sink.old.written ≡ [] }
    ensures events { IfOk result (λ events. events ≡ length (lines source.old.left) + 1) }
    ensures printed { OnOk result (sink.new.written ≡ text default_settings (script source.old.left)) }
{
    match drive(alloc, source, sink, &Settings::default()) {
        Ok(driven) => Ok(driven.events),
        Err(_) => Err(AllocError),
    }
}

/// The script.
fn script(alloc: Global, soak: Soak) -> Result<String, AllocError>
    requires { soak.seed ≤ 65536 }
    ensures { IfOk result (λ script. string_bytes script ≡ soak_script soak) }
{
    let mut script = String::from_str(alloc, DECLARATIONS)?;
    append_puts(&mut script, soak)?;
    Ok(script)
}

/// Its puts, behind what was made.
fn append_puts(script: &mut String, soak: Soak) -> Result<(), AllocError>
    requires { soak.seed ≤ 65536 }
    ensures { OnOk result (string_bytes script.new ≡ string_bytes script.old ++ put_lines soak.seed soak.puts) }
{
    let mut number = soak.seed;
    for place in 0..soak.puts {
        number = (75 * number + 74) % 65537;
        append_put(script, number, place + 1)?;
    }
    Ok(())
}

/// The line of one put.
fn append_put(script: &mut String, number: u64, place: u64) -> Result<(), AllocError>
    ensures { OnOk result (string_bytes script.new ≡ string_bytes script.old ++ put_line number place) }
{
    let key = 1 + number % 8;
    let chunk = number / 8 % 100;
    write!(script, "put\tany\t#{key}:/{chunk}\tx")?;
    append_byte(script, (place % 256) as u8)?;
    script.push('\n')
}

/// A byte in two hexadecimal digits.
fn append_byte(script: &mut String, byte: u8) -> Result<(), AllocError>
    ensures { OnOk result (string_bytes script.new ≡ string_bytes script.old ++ byte_digits byte) }
{
    write!(script, "{byte:02x}")
}

/// Counts the lines of an output, of which so many events were taken.
fn tally_of(events: u64, output: &[u8]) -> Tally
    ensures { result ≡ tally_of events output.now }
{
    let mut tally = Tally {
        events,
        handed: 0,
        sent: 0,
        refused: 0,
    };
    let mut output = output;
    'lines: while let Some((line, rest)) = first_line(output) {
        let told = behind_number(line);
        tally.handed += u64::from(told.starts_with(b"hand\tsub\t"));
        tally.sent += u64::from(told.starts_with(b"send\t"));
        tally.refused += u64::from(told.starts_with(b"refused\t"));
        output = rest;
    }
    tally
}

/// The first line of an output, and what is behind it.
fn first_line(output: &[u8]) -> Option<(&[u8], &[u8])>
    ensures line { lines output.now ≡ lines_from (option_map (λ found. (found.0.now, found.1.now)) result) }
    ensures shorter { IfSome result (λ found. length found.1.now < length output.now) }
{
    if output.is_empty() {
        return None;
    }
    match position_of(output, b'\n') {
        Some(place) => Some((&output[..place], behind(output, place + 1))),
        None => Some((output, &[])),
    }
}

/// What is behind a line's number.
fn behind_number(line: &[u8]) -> &[u8]
    ensures { result.now ≡ after_first (λ b. b == 9) line.now }
{
    match position_of(line, b'\t') {
        Some(place) => behind(line, place + 1),
        None => &[],
    }
}

/// Where the first such byte is.
fn position_of(bytes: &[u8], byte: u8) -> Option<usize>
    ensures { result ≡ position (λ b. b == byte) bytes.now }
{
    bytes.iter().position(|other| *other == byte)
}

/// What is behind the first `start` bytes.
fn behind(bytes: &[u8], start: usize) -> &[u8]
    requires { start ≤ length bytes.now }
    ensures { result.now ≡ drop start bytes.now }
{
    &bytes[start..]
}
