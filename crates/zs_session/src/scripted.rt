//! A session that takes the events of a script, and the channels of those that it declared.

ghost use Rattle.std.specs.Prelude.{◌≡◌, ℕ, ◌+◌, Bool, true, false, is_some, ◌++◌, List, [], ◌∷◌, length, None, Ok, IsTrue, IfOk, OnOk, OnErr};
ghost use Rattle.zs_driving.specs.Tasks.{Rules};
ghost use Rattle.zs_driving.specs.Languages.{rules_of};
ghost use Rattle.zs_events.specs.declared.event.Event.TheVariants.{Close};
ghost use Rattle.zs_events.specs.declared.script_event.ScriptEvent.{ScriptEvent};
ghost use Rattle.zs_events.specs.declared.script_event.ScriptEvent.TheVariants.{Core, Recv};
ghost use Rattle.zs_core.specs.Types.{Settings};
ghost use Rattle.zs_core.specs.Settings.{is_valid};
ghost use Rattle.zs_events.specs.Turn.{answered};
ghost use Rattle.zs_channels.specs.Table.{behind_all};
ghost use Rattle.zs_channels.specs.Heard.{news_of_turn};
ghost use Rattle.zs_printing.specs.Printing.{turn_text};
ghost use Rattle.zs_grammar.specs.Grammar.{event_of};
ghost use Rattle.zs_session.specs.Script.{event_text, language, read_text, read_refusal};
ghost use Rattle.zs_session.specs.Scripted.{StandsFor, IsBehind};

use crate::printing::{add_received, add_turn};
use crate::quiet::QuietSession;
use std::alloc::{AllocError, Global};
use zs_channels::Channels;
use zs_core::{Event, HandOver, Kind, Refusal, Settings, Turn};
use zs_driving::{LineMachine, Transcript};
use zs_events::{Received, ScriptEvent};
use zs_lines::Line;
use zs_script::parse_event;

/// A session, and the channels of those that it declared.
#[derive(Drop)]
pub(crate) struct ScriptedSession {
    alloc: Global,
    state: QuietSession,
    channels: Channels<HandOver>,
    /// Where each event's text is printed; its memory outlives the events.
    printed: String,
}

impl ScriptedSession {
    /// A new session, in which nothing is declared.
    pub(crate) fn new(alloc: Global, settings: &Settings) -> Result<ScriptedSession, AllocError>
        requires { IsTrue (is_valid settings.now) }
        ensures { IfOk result (λ made. StandsFor made settings.now []) }
    {
        let state = QuietSession::new(alloc, settings)?;
        Ok(ScriptedSession {
            alloc,
            state,
            channels: Channels::new(alloc),
            printed: String::new(alloc),
        })
    }

    /// Takes one event of a script, and adds the text of what came of it, under this number, to the transcript.
    ///
    /// # Errors
    ///
    /// Want of memory alone. Then no text was added, but the event may have been taken.
    fn take_event(
        &mut self,
        event: ScriptEvent,
        number: u64,
        transcript: &mut Transcript,
    ) -> Result<(), AllocError>
        ensures text { OnOk result ((s : Settings) (h : List ScriptEvent) → StandsFor self.old s h
            → transcript.new ≡ transcript.old ++ event_text s h number event) }
        ensures stands { OnOk result ((s : Settings) (h : List ScriptEvent) → StandsFor self.old s h → StandsFor self.new s (event ∷ h)) }
        ensures err { OnErr result (transcript.new ≡ transcript.old) }
    {
        match event {
            ScriptEvent::Core(event) => self.take_own(event, number, transcript),
            ScriptEvent::Recv { kind, number: id } => self.read(kind, id, number, transcript),
        }
    }

    /// Takes an event of the session.
    fn take_own(
        &mut self,
        event: Event,
        number: u64,
        transcript: &mut Transcript,
    ) -> Result<(), AllocError>
        ensures text { OnOk result ((s : Settings) (h : List ScriptEvent) → StandsFor self.old s h
            → transcript.new ≡ transcript.old ++ event_text s h number (Core event)) }
        ensures stands { OnOk result ((s : Settings) (h : List ScriptEvent) → StandsFor self.old s h → StandsFor self.new s (Core event ∷ h)) }
        ensures err { OnErr result (transcript.new ≡ transcript.old) }
    {
        let taken = self.step(&event, number, transcript);
        drop(event);
        taken
    }

    /// It is `take_own` of an event that is lent, so that no function lets go of an event and of a turn. The channels hear the
    /// turn before its text is added.
    fn step(
        &mut self,
        event: &Event,
        number: u64,
        transcript: &mut Transcript,
    ) -> Result<(), AllocError>
        ensures text { OnOk result ((s : Settings) (h : List ScriptEvent) → StandsFor self.old s h
            → transcript.new ≡ transcript.old ++ event_text s h number (Core event.now)) }
        ensures stands { OnOk result ((s : Settings) (h : List ScriptEvent) → StandsFor self.old s h → StandsFor self.new s (Core event.now ∷ h)) }
        ensures err { OnErr result (transcript.new ≡ transcript.old) }
    {
        let turn = self.state.step(event)?;
        let added = self.add_heard(event, turn.get(), number, transcript);
        drop(turn);
        added
    }

    /// Has the channels hear a turn, and adds its text.
    fn add_heard(
        &mut self,
        event: &Event,
        turn: &Turn,
        number: u64,
        transcript: &mut Transcript,
    ) -> Result<(), AllocError>
        ensures text { OnOk result (transcript.new ≡ transcript.old ++ turn_text number turn.now) }
        ensures state { self.new.state ≡ self.old.state }
        ensures heard { OnOk result (self.new.channels ≡ behind_all (news_of_turn event.now turn.now) self.old.channels) }
        ensures err { OnErr result (transcript.new ≡ transcript.old) }
    {
        self.channels.hear_turn(event, turn)?;
        add_turn(&mut self.printed, transcript, number, turn)
    }

    /// Reads the channel of a kind and number.
    fn read(
        &mut self,
        kind: Kind,
        id: u32,
        number: u64,
        transcript: &mut Transcript,
    ) -> Result<(), AllocError>
        ensures text { OnOk result ((s : Settings) (h : List ScriptEvent) → StandsFor self.old s h
            → transcript.new ≡ transcript.old ++ event_text s h number (Recv kind id)) }
        ensures stands { OnOk result ((s : Settings) (h : List ScriptEvent) → StandsFor self.old s h → StandsFor self.new s (Recv kind id ∷ h)) }
        ensures err { OnErr result (transcript.new ≡ transcript.old) }
    {
        let answer = self.channels.recv(kind, id);
        let closed = self.state.is_closed();
        let added = add_read(
            self.alloc,
            &mut self.printed,
            transcript,
            number,
            &answer,
            closed,
        );
        drop(answer);
        added
    }
}

impl LineMachine for ScriptedSession {
    ghost is_line = { λ row. is_some (event_of row) };

    ghost rules = { λ run. rules_of (language run.state.settings) };

    ghost took = { IsBehind };

    ghost closed = { λ run r h. Unit {0} };

    /// Takes a line of a script, and adds what comes of it. False says that the line is none of a script.
    fn take(&mut self, line: &Line, transcript: &mut Transcript) -> Result<bool, AllocError> {
        let Some(event) = parse_event(self.alloc, line)? else {
            return Ok(false);
        };
        self.take_event(event, line.number, transcript)?;
        Ok(true)
    }

    /// Takes the end of input, which closes the session, and adds what comes of that.
    fn end(&mut self, number: u64, transcript: &mut Transcript) -> Result<(), AllocError> {
        self.take_event(end_of_input(), number, transcript)
    }
}

/// The close that the end of input is.
fn end_of_input() -> ScriptEvent
    ensures { result ≡ Core Close }
{
    ScriptEvent::Core(Event::Close)
}

/// Adds the text of a read, given what the channel answered, if there is one, and whether the session is closed.
fn add_read(
    alloc: Global,
    memory: &mut String,
    transcript: &mut Transcript,
    number: u64,
    answer: &Option<Received<HandOver>>,
    closed: bool,
) -> Result<(), AllocError>
    ensures ok { OnOk result (transcript.new ≡ transcript.old ++ read_text number answer.now closed) }
    ensures err { OnErr result (transcript.new ≡ transcript.old) }
{
    match answer {
        Some(received) => add_received(memory, transcript, number, received),
        None => add_turn(memory, transcript, number, &unread(alloc, closed)),
    }
}

/// The turn of a read where there is no channel.
fn unread(alloc: Global, closed: bool) -> Turn
    ensures { result ≡ answered (read_refusal None closed) None [] }
{
    if closed {
        Turn::quiet(alloc, None)
    } else {
        Turn::refused(alloc, Refusal::NotFound)
    }
}
