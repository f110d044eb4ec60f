//! The program: its words, and what each makes it do.

ghost use Rattle.std.specs.Prelude.{◌≡◌, ◌≢◌, ◌≤◌, ℕ, List, map, Some, None, IsTrue};
ghost use Rattle.std.specs.String.{string_bytes};
ghost use Rattle.zs_core.specs.Types.{Settings};
ghost use Rattle.zs_core.specs.Settings.{is_valid};
ghost use Rattle.zs_driving.specs.Statuses.{Complains};
ghost use Rattle.zs_session.specs.Running.{bad_words, Runs, Links, Hands, Soaks};
ghost use Rattle.zs_session.specs.Soak.{soak_of};
ghost use Rattle.zs_session.specs.Words.{settings_of, link_of};
ghost use Rattle.zs_session.specs.declared.soak.Soak.{Soak};

use crate::driving::drive;
use crate::soak::{Soak, drive_soak, soak_of};
use crate::spelling::spell_words;
use crate::words::{is_link, link_of, settings_of};
use std::alloc::Global;
use zs_core::Settings;
use zs_driving::{DriveError, complain, conclude};
use zs_keys::{Sink, Source};
use zs_link::{drive_link, lines_are_handed};

/// The program: drives a session by the source's script, with the settings that the words give, and returns the exit
/// status.
///
/// The words are none, or `drive` and then settings in any order: `zid=HEX`, `tag=N`, `entity=N`, `key=N`, `query=N`,
/// `timeout=N`, `line=N` and `turns=N`, each at most once, and any number of `aggsub=KEY` and `aggpub=KEY`, which keep
/// their order. Or they are `soak SEED N`: then nothing is read, a session is driven in memory by a script of so many
/// puts that the seed makes, and four lines tell of its events, and of the hand-overs, the messages and the refusals
/// that it printed. Or they are `link` and then the same settings: then two sessions are linked, of which the first has
/// them, and neither has its identifier nor its tag, 2, from the words; the lines of the source say what each takes and
/// when a message is delivered.
///
/// The status is 0 at the end of a script. 2 says that the words are others, or give settings that are not valid; then
/// nothing is read or written. 3 says that a line is no event, 4 that a line is too long, 5 that there were too many
/// reads, 6 that the source failed, 7 that the sink did, and 8 that there was no memory. A line that says so goes to
/// `complaints`, whose own faults change nothing.
pub fn run<S: Source, K: Sink, C: Sink>(
    alloc: Global,
    words: &[String],
    source: &mut S,
    sink: &mut K,
    complaints: &mut C,
) -> u8
    ensures words { settings_of (map string_bytes words.now) ≡ None → soak_of (map string_bytes words.now) ≡ None → link_of (map string_bytes words.now) ≡ None
        → (result ≡ 2) × (source.new ≡ source.old) × (sink.new ≡ sink.old) × Complains (record { written = C.written complaints.old; faults = C.faults complaints.old })
        (record { written = C.written complaints.new; faults = C.faults complaints.new }) bad_words }
    ensures only_words { result ≡ 2 → (settings_of (map string_bytes words.now) ≡ None) × (soak_of (map string_bytes words.now) ≡ None) × (link_of (map string_bytes words.now) ≡ None) }
    ensures runs { (s : Settings) → settings_of (map string_bytes words.now) ≡ Some s → Runs s result
        (record { left = S.left source.old; reads = S.reads source.old; pieces = S.pieces source.old; faults = S.faults source.old })
        (record { left = S.left source.new; reads = S.reads source.new; pieces = S.pieces source.new; faults = S.faults source.new })
        (record { written = K.written sink.old; faults = K.faults sink.old })
        (record { written = K.written sink.new; faults = K.faults sink.new })
        (record { written = C.written complaints.old; faults = C.faults complaints.old })
        (record { written = C.written complaints.new; faults = C.faults complaints.new }) }
    ensures soaks { (soak : Soak) → soak_of (map string_bytes words.now) ≡ Some soak → (source.new ≡ source.old) × Soaks soak result
        (record { written = K.written sink.old; faults = K.faults sink.old })
        (record { written = K.written sink.new; faults = K.faults sink.new })
        (record { written = C.written complaints.old; faults = C.faults complaints.old })
        (record { written = C.written complaints.new; faults = C.faults complaints.new }) }
    ensures links { (s : Settings) → link_of (map string_bytes words.now) ≡ Some s → Links s result
        (record { left = S.left source.old; reads = S.reads source.old; pieces = S.pieces source.old; faults = S.faults source.old })
        (record { left = S.left source.new; reads = S.reads source.new; pieces = S.pieces source.new; faults = S.faults source.new })
        (record { written = K.written sink.old; faults = K.faults sink.old })
        (record { written = K.written sink.new; faults = K.faults sink.new })
        (record { written = C.written complaints.old; faults = C.faults complaints.old })
        (record { written = C.written complaints.new; faults = C.faults complaints.new }) }
    ensures hands { (s : Settings) → link_of (map string_bytes words.now) ≡ Some s → Hands s }
    ensures quiet { result ≡ 0 → complaints.new ≡ complaints.old }
{
    law_of_links(words);
    if is_link(words) {
        return run_link(alloc, words, source, sink, complaints);
    }
    run_single(alloc, words, source, sink, complaints)
}

/// Drives one session. It is `run` of words that are not those of linked sessions.
fn run_single<S: Source, K: Sink, C: Sink>(
    alloc: Global,
    words: &[String],
    source: &mut S,
    sink: &mut K,
    complaints: &mut C,
) -> u8
    ensures words { settings_of (map string_bytes words.now) ≡ None → soak_of (map string_bytes words.now) ≡ None
        → (result ≡ 2) × (source.new ≡ source.old) × (sink.new ≡ sink.old) × Complains (record { written = C.written complaints.old; faults = C.faults complaints.old })
        (record { written = C.written complaints.new; faults = C.faults complaints.new }) bad_words }
    ensures only_words { result ≡ 2 → (settings_of (map string_bytes words.now) ≡ None) × (soak_of (map string_bytes words.now) ≡ None) }
    ensures runs { (s : Settings) → settings_of (map string_bytes words.now) ≡ Some s → Runs s result
        (record { left = S.left source.old; reads = S.reads source.old; pieces = S.pieces source.old; faults = S.faults source.old })
        (record { left = S.left source.new; reads = S.reads source.new; pieces = S.pieces source.new; faults = S.faults source.new })
        (record { written = K.written sink.old; faults = K.faults sink.old })
        (record { written = K.written sink.new; faults = K.faults sink.new })
        (record { written = C.written complaints.old; faults = C.faults complaints.old })
        (record { written = C.written complaints.new; faults = C.faults complaints.new }) }
    ensures soaks { (soak : Soak) → soak_of (map string_bytes words.now) ≡ Some soak → (source.new ≡ source.old) × Soaks soak result
        (record { written = K.written sink.old; faults = K.faults sink.old })
        (record { written = K.written sink.new; faults = K.faults sink.new })
        (record { written = C.written complaints.old; faults = C.faults complaints.old })
        (record { written = C.written complaints.new; faults = C.faults complaints.new }) }
    ensures quiet { result ≡ 0 → complaints.new ≡ complaints.old }
{
    if let Some(soak) = soak_of(words) {
        return run_soak(alloc, soak, sink, complaints);
    }
    match settings_of(alloc, words) {
        Ok(Some(settings)) => run_with(alloc, &settings, source, sink, complaints),
        Ok(None) => {
            complain(complaints, b"bad words\n");
            2
        }
        Err(_) => conclude(complaints, Err(DriveError::NoMemory)),
    }
}

/// Drives a session with these settings, complains where it stopped before the end of the script, and returns the exit
/// status. It is `run` behind its words.
fn run_with<S: Source, K: Sink, C: Sink>(
    alloc: Global,
    settings: &Settings,
    source: &mut S,
    sink: &mut K,
    complaints: &mut C,
) -> u8
    requires { IsTrue (is_valid settings.now) }
    ensures runs { Runs settings.now result
        (record { left = S.left source.old; reads = S.reads source.old; pieces = S.pieces source.old; faults = S.faults source.old })
        (record { left = S.left source.new; reads = S.reads source.new; pieces = S.pieces source.new; faults = S.faults source.new })
        (record { written = K.written sink.old; faults = K.faults sink.old })
        (record { written = K.written sink.new; faults = K.faults sink.new })
        (record { written = C.written complaints.old; faults = C.faults complaints.old })
        (record { written = C.written complaints.new; faults = C.faults complaints.new }) }
    ensures not_words { result ≢ 2 }
    ensures quiet { result ≡ 0 → complaints.new ≡ complaints.old }
{
    let answer = drive(alloc, source, sink, settings);
    conclude(complaints, answer)
}

/// Drives a session by a script of its own making, writes what that came to, complains where it could not, and returns
/// the exit status. It is `run` behind such words.
fn run_soak<K: Sink, C: Sink>(alloc: Global, soak: Soak, sink: &mut K, complaints: &mut C) -> u8
    requires { soak.seed ≤ 65536 }
    ensures soaks { Soaks soak result (record { written = K.written sink.old; faults = K.faults sink.old })
        (record { written = K.written sink.new; faults = K.faults sink.new })
        (record { written = C.written complaints.old; faults = C.faults complaints.old })
        (record { written = C.written complaints.new; faults = C.faults complaints.new }) }
    ensures not_words { result ≢ 2 }
    ensures quiet { result ≡ 0 → complaints.new ≡ complaints.old }
{
    match drive_soak(alloc, soak, sink) {
        Ok(()) => 0,
        Err(error) => conclude(complaints, Err(error)),
    }
}

/// Behind the lines of linked sessions that words start, each push that is delivered is handed to whom it meets.
fn law_of_links(words: &[String])
    ensures { (s : Settings) → link_of (map string_bytes words.now) ≡ Some s → Hands s }
{
    lines_are_handed();
    spell_words(words);
}

/// Drives two linked sessions, with the settings that the words give. It is `run` of such words.
#[tactic(auto, unfolding(crate::specs::Running::Links))]
fn run_link<S: Source, K: Sink, C: Sink>(
    alloc: Global,
    words: &[String],
    source: &mut S,
    sink: &mut K,
    complaints: &mut C,
) -> u8
    ensures words { link_of (map string_bytes words.now) ≡ None
        → (result ≡ 2) × (source.new ≡ source.old) × (sink.new ≡ sink.old) × Complains (record { written = C.written complaints.old; faults = C.faults complaints.old })
        (record { written = C.written complaints.new; faults = C.faults complaints.new }) bad_words }
    ensures only_words { result ≡ 2 → link_of (map string_bytes words.now) ≡ None }
    ensures links { (s : Settings) → link_of (map string_bytes words.now) ≡ Some s → Links s result
        (record { left = S.left source.old; reads = S.reads source.old; pieces = S.pieces source.old; faults = S.faults source.old })
        (record { left = S.left source.new; reads = S.reads source.new; pieces = S.pieces source.new; faults = S.faults source.new })
        (record { written = K.written sink.old; faults = K.faults sink.old })
        (record { written = K.written sink.new; faults = K.faults sink.new })
        (record { written = C.written complaints.old; faults = C.faults complaints.old })
        (record { written = C.written complaints.new; faults = C.faults complaints.new }) }
    ensures quiet { result ≡ 0 → complaints.new ≡ complaints.old }
{
    match link_of(alloc, words) {
        Ok(Some(settings)) => run_linked(alloc, &settings, source, sink, complaints),
        Ok(None) => {
            complain(complaints, b"bad words\n");
            2
        }
        Err(_) => conclude(complaints, Err(DriveError::NoMemory)),
    }
}

/// It is `run_link` behind its words.
#[tactic(auto, unfolding(crate::specs::Running::Links))]
fn run_linked<S: Source, K: Sink, C: Sink>(
    alloc: Global,
    settings: &Settings,
    source: &mut S,
    sink: &mut K,
    complaints: &mut C,
) -> u8
    requires { IsTrue (is_valid settings.now) }
    ensures links { Links settings.now result
        (record { left = S.left source.old; reads = S.reads source.old; pieces = S.pieces source.old; faults = S.faults source.old })
        (record { left = S.left source.new; reads = S.reads source.new; pieces = S.pieces source.new; faults = S.faults source.new })
        (record { written = K.written sink.old; faults = K.faults sink.old })
        (record { written = K.written sink.new; faults = K.faults sink.new })
        (record { written = C.written complaints.old; faults = C.faults complaints.old })
        (record { written = C.written complaints.new; faults = C.faults complaints.new }) }
    ensures not_words { result ≢ 2 }
    ensures quiet { result ≡ 0 → complaints.new ≡ complaints.old }
{
    let answer = drive_link(alloc, source, sink, settings);
    conclude(complaints, answer)
}
