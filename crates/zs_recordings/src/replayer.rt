//! A session that takes the events of a recording, and compares what comes of them with what was recorded.

ghost use Rattle.std.specs.Prelude.{◌≡◌, ℕ, ◌+◌, ◌==◌, Bool, true, false, is_some, ◌||◌, ◌++◌, List, [], ◌∷◌, length, Ok, Some, codes, IsTrue, IfOk, IfSome, OnOk, OnErr};
ghost use Rattle.std.specs.String.{string_bytes};
ghost use Rattle.zs_driving.specs.Tasks.{Rules};
ghost use Rattle.zs_driving.specs.Languages.{rules_of};
ghost use Rattle.zs_core.specs.Types.{Settings};
ghost use Rattle.zs_core.specs.Settings.{is_valid};
ghost use Rattle.zs_grammar.specs.Grammar.{event_of};
ghost use Rattle.zs_recordings.specs.Entries.{if_core, session_of};
ghost use Rattle.zs_recordings.specs.Replaying.{Said, Heard, Group, recording_line, replay_language, replayed_by, replayed_text, first_other};
ghost use Rattle.zs_recordings.specs.Machines.{Follows, Plays, HasPlayed, other_in};

use crate::entries::append_turn_rows;
use crate::replayed::Replayed;
use std::alloc::{AllocError, Global};
use std::fmt::Write;
use zs_core::{Event, SessionState, Settings};
use zs_driving::{LineMachine, Transcript};
use zs_events::ScriptEvent;
use zs_lines::Line;
use zs_script::parse_event;

/// A session that plays a recording again.
#[derive(Drop)]
pub(crate) struct Replayer {
    alloc: Global,
    state: SessionState,
    /// How many events were taken.
    count: u64,
    /// What was recorded of the last event, which may be no text, and the lines of its turn. Their memory outlives the
    /// events.
    heard: Vec<u8>,
    rows: String,
    /// The first event before the last one of which something else was recorded.
    other: Option<u64>,
    /// Whether a line of a turn stood before all events.
    headless: bool,
}

impl Replayer {
    /// A new session, in which nothing is declared.
    pub(crate) fn new(alloc: Global, settings: &Settings) -> Result<Replayer, AllocError>
        requires { IsTrue (is_valid settings.now) }
        ensures follows { IfOk result (λ made. Follows made settings.now []) }
        ensures headless { IfOk result (λ made. made.headless ≡ false) }
    {
        let state = SessionState::new(alloc, settings)?;
        Ok(Replayer {
            alloc,
            state,
            count: 0,
            heard: Vec::new(alloc),
            rows: String::new(alloc),
            other: None,
            headless: false,
        })
    }

    /// What the recording is by the lines that were taken.
    #[tactic(auto, using(crate::proofs::Played::playing))]
    pub(crate) fn outcome(&self) -> Replayed
        ensures { (s : Settings) (groups : List Group) → Follows self.now s groups → result ≡ replayed_by (first_other s groups) (length groups) }
    {
        match self.first_other() {
            Some(place) => Replayed::Differs(place),
            None => Replayed::Same(self.count),
        }
    }

    /// Whether a line of a turn stood before all events.
    pub(crate) fn is_headless(&self) -> bool
        ensures { result ≡ self.now.headless }
    {
        self.headless
    }

    /// The first event of which something else was recorded than what came of it.
    fn first_other(&self) -> Option<u64>
        ensures { result ≡ other_in self.now }
    {
        if self.other.is_some() {
            return self.other;
        }
        if self.heard.as_slice() == self.rows.as_bytes() {
            None
        } else {
            Some(self.count)
        }
    }

    /// Takes a row of bytes. False says that it is no line of a recording.
    fn take_row(&mut self, row: &[u8], number: u64) -> Result<bool, AllocError>
        ensures known { IfOk result (λ taken. taken ≡ is_some (recording_line row.now)) }
        ensures took { result ≡ Ok true → IfSome (recording_line row.now) (λ line. Plays line self.old self.new) }
    {
        match row {
            [b'>', b'\t', said @ ..] => self.take_line(said, number),
            [b'<', b'\t', ..] => self.hear(row),
            _ => Ok(false),
        }
    }

    /// Takes the line of an event.
    fn take_line(&mut self, row: &[u8], number: u64) -> Result<bool, AllocError>
        ensures known { IfOk result (λ taken. taken ≡ is_some (session_of row.now)) }
        ensures took { result ≡ Ok true → IfSome (session_of row.now) (λ e. Plays (Said e) self.old self.new) }
    {
        match said_by(self.alloc, row, number)? {
            Some(event) => self.take_own(event),
            None => Ok(false),
        }
    }

    /// Takes an event of the session.
    fn take_own(&mut self, event: Event) -> Result<bool, AllocError>
        ensures known { IfOk result (λ taken. taken ≡ true) }
        ensures took { OnOk result (Plays (Said event) self.old self.new) }
    {
        let taken = self.step(&event);
        drop(event);
        taken?;
        Ok(true)
    }

    /// Steps the session by an event that is lent, once it is known whether the one before it was recorded as it is.
    #[tactic(auto, using(crate::proofs::Played::playing))]
    fn step(&mut self, event: &Event) -> Result<(), AllocError>
        ensures { OnOk result (Plays (Said event.now) self.old self.new) }
    {
        let other = self.first_other();
        let Some(count) = self.count.checked_add(1) else {
            return Err(AllocError);
        };
        let turn = self.state.step(event)?;
        self.heard.clear();
        self.rows.clear();
        let added = append_turn_rows(&mut self.rows, count, &turn);
        drop(turn);
        added?;
        self.other = other;
        self.count = count;
        Ok(())
    }

    /// Takes a line of a turn.
    #[tactic(auto, using(crate::proofs::Played::playing))]
    fn hear(&mut self, row: &[u8]) -> Result<bool, AllocError>
        ensures known { IfOk result (λ taken. taken ≡ true) }
        ensures took { OnOk result (Plays (Heard row.now) self.old self.new) }
    {
        if self.count == 0 {
            self.headless = true;
            return Ok(true);
        }
        self.heard.extend_from_slice(row)?;
        self.heard.push(b'\n')?;
        Ok(true)
    }
}

/// The event of the session that a line of a script says.
fn said_by(alloc: Global, row: &[u8], number: u64) -> Result<Option<Event>, AllocError>
    ensures { IfOk result (λ found. found ≡ session_of row.now) }
{
    let mut bytes = Vec::with_capacity(alloc, row.len())?;
    bytes.extend_from_slice(row)?;
    let line = Line { number, bytes };
    let said = parse_event(alloc, &line);
    drop(line);
    match said? {
        Some(ScriptEvent::Core(event)) => Ok(Some(event)),
        Some(read) => {
            drop(read);
            Ok(None)
        }
        None => Ok(None),
    }
}

/// Adds what a recording was found to be.
fn add_replayed(
    alloc: Global,
    transcript: &mut Transcript,
    replayed: Replayed,
) -> Result<(), AllocError>
    ensures ok { OnOk result (transcript.new ≡ transcript.old ++ replayed_text replayed) }
    ensures err { OnErr result (transcript.new ≡ transcript.old) }
{
    let mut text = String::new(alloc);
    match replayed {
        Replayed::Same(count) => writeln!(text, "same\t{count}")?,
        Replayed::Differs(place) => writeln!(text, "differs\t{place}")?,
    }
    transcript.add(text.as_str())
}

impl LineMachine for Replayer {
    ghost is_line = { λ row. is_some (recording_line row) };

    ghost rules = { λ machine. rules_of (replay_language machine.state.settings) };

    ghost took = { HasPlayed };

    ghost closed = { HasPlayed };

    /// Takes a line of a recording, of an event or of what came of one. Nothing is added before the end.
    #[tactic(auto, using(crate::proofs::Played::owed))]
    fn take(&mut self, line: &Line, _transcript: &mut Transcript) -> Result<bool, AllocError> {
        self.take_row(&line.bytes, line.number)
    }

    /// Adds whether the recording says what comes of each event, or where it first differs. Nothing is added where a
    /// line of a turn stood before all events.
    #[tactic(auto, using(crate::proofs::Played::owed))]
    fn end(&mut self, _number: u64, transcript: &mut Transcript) -> Result<(), AllocError> {
        if self.is_headless() {
            return Ok(());
        }
        add_replayed(self.alloc, transcript, self.outcome())
    }
}
