//! A session that takes the events of a script and records them.

ghost use Rattle.std.specs.Prelude.{◌≡◌, ℕ, ◌+◌, true, false, is_some, ◌++◌, List, [], ◌∷◌, length, Ok, Some, IsTrue, IfOk, IfSome, OnOk, OnErr};
ghost use Rattle.std.specs.Str.{is_utf8};
ghost use Rattle.std.specs.String.{string_bytes};
ghost use Rattle.zs_driving.specs.Tasks.{Rules};
ghost use Rattle.zs_driving.specs.Languages.{rules_of};
ghost use Rattle.zs_events.specs.declared.event.Event.TheVariants.{Close};
ghost use Rattle.zs_core.specs.Settings.{is_valid};
ghost use Rattle.zs_core.specs.Stands.{Stands};
ghost use Rattle.zs_recordings.specs.Entries.{event_row, turn_rows, if_printable, if_recorded, recorded_of};
ghost use Rattle.zs_recordings.specs.Recording.{record_language};
ghost use Rattle.zs_recordings.specs.Machines.{Records, IsBehind, AllAreTexts};

use crate::entries::{append_event_row, append_turn_rows};
use std::alloc::{AllocError, Global};
use zs_core::{Event, SessionState, Settings, Turn};
use zs_driving::{LineMachine, Transcript};
use zs_events::ScriptEvent;
use zs_lines::Line;
use zs_script::parse_event;

/// A session whose events are recorded.
#[derive(Drop)]
pub(crate) struct Recorder {
    alloc: Global,
    state: SessionState,
    /// Where each entry is printed; its memory outlives the events.
    printed: String,
}

impl Recorder {
    /// A new session, in which nothing is declared.
    pub(crate) fn new(alloc: Global, settings: &Settings) -> Result<Recorder, AllocError>
        requires { IsTrue (is_valid settings.now) }
        ensures { IfOk result (λ made. Stands made.state settings.now []) }
    {
        let state = SessionState::new(alloc, settings)?;
        Ok(Recorder {
            alloc,
            state,
            printed: String::new(alloc),
        })
    }

    /// Takes what a line of a script says. False says that it can't be recorded: it is a read of a channel.
    fn take_said(
        &mut self,
        said: ScriptEvent,
        number: u64,
        transcript: &mut Transcript,
    ) -> Result<bool, AllocError>
        ensures known { IfOk result (λ taken. taken ≡ is_some (if_recorded (Some said))) }
        ensures took { result ≡ Ok true → IfSome (if_recorded (Some said)) (λ e. Records e number self.old.state self.new.state transcript.old transcript.new) }
        ensures none { result ≡ Ok false → transcript.new ≡ transcript.old }
        ensures err { OnErr result (transcript.new ≡ transcript.old) }
    {
        match said {
            ScriptEvent::Core(event) => self.take_own(event, number, transcript),
            read => {
                drop(read);
                Ok(false)
            }
        }
    }

    /// Takes an event of the session.
    fn take_own(
        &mut self,
        event: Event,
        number: u64,
        transcript: &mut Transcript,
    ) -> Result<bool, AllocError>
        ensures known { IfOk result (λ taken. taken ≡ is_some (if_printable event)) }
        ensures took { result ≡ Ok true → IfSome (if_printable event) (λ e. Records e number self.old.state self.new.state transcript.old transcript.new) }
        ensures none { result ≡ Ok false → transcript.new ≡ transcript.old }
        ensures err { OnErr result (transcript.new ≡ transcript.old) }
    {
        let taken = self.take_event(&event, number, transcript);
        drop(event);
        taken
    }

    /// It is `take_own` of an event that is lent. Whether a line says the event is known before it is taken.
    #[tactic(auto, using(crate::proofs::Recorded::taking))]
    fn take_event(
        &mut self,
        event: &Event,
        number: u64,
        transcript: &mut Transcript,
    ) -> Result<bool, AllocError>
        ensures known { IfOk result (λ taken. taken ≡ is_some (if_printable event.now)) }
        ensures took { result ≡ Ok true → IfSome (if_printable event.now) (λ e. Records e number self.old.state self.new.state transcript.old transcript.new) }
        ensures none { result ≡ Ok false → transcript.new ≡ transcript.old }
        ensures err { OnErr result (transcript.new ≡ transcript.old) }
    {
        self.printed.clear();
        let told = append_event_row(&mut self.printed, event)?;
        if !told {
            return Ok(false);
        }
        self.step(event, number, transcript)?;
        Ok(true)
    }

    /// Steps the session by an event whose line is printed, and adds that and the lines of its turn.
    #[tactic(auto, using(crate::proofs::Recorded::stepping))]
    fn step(
        &mut self,
        event: &Event,
        number: u64,
        transcript: &mut Transcript,
    ) -> Result<(), AllocError>
        requires { Some (string_bytes self.old.printed) ≡ event_row event.now }
        ensures took { OnOk result (Records event.now number self.old.state self.new.state transcript.old transcript.new) }
        ensures err { OnErr result (transcript.new ≡ transcript.old) }
    {
        let turn = self.state.step(event)?;
        let added = add_turn(&mut self.printed, transcript, number, &turn);
        drop(turn);
        added?;
        Ok(())
    }

    /// Takes the close that the end of input is.
    fn close(&mut self, number: u64, transcript: &mut Transcript) -> Result<(), AllocError>
        ensures took { OnOk result (Records Close number self.old.state self.new.state transcript.old transcript.new) }
        ensures err { OnErr result (transcript.new ≡ transcript.old) }
    {
        let close = Event::Close;
        let taken = self.take_event(&close, number, transcript);
        drop(close);
        taken?;
        Ok(())
    }
}

/// Adds what is printed and the lines of a turn to the transcript.
fn add_turn(
    printed: &mut String,
    transcript: &mut Transcript,
    number: u64,
    turn: &Turn,
) -> Result<(), AllocError>
    ensures ok { OnOk result (transcript.new ≡ transcript.old ++ (string_bytes printed.old ++ turn_rows number turn.now)) }
    ensures utf8 { OnOk result (is_utf8 (string_bytes printed.old ++ turn_rows number turn.now) ≡ true) }
    ensures err { OnErr result (transcript.new ≡ transcript.old) }
{
    append_turn_rows(printed, number, turn)?;
    transcript.add(printed.as_str())
}

impl LineMachine for Recorder {
    ghost is_line = { λ row. is_some (recorded_of row) };

    ghost rules = { λ machine. rules_of (record_language machine.state.settings) };

    ghost took = { IsBehind };

    ghost closed = { λ machine r h. AllAreTexts r h };

    /// Takes the event that a line of a script says, and adds what is recorded of it. False says that the line is none
    /// of a script, or a read of a channel: that is not recorded.
    #[tactic(auto, using(crate::proofs::Recorded::owed))]
    fn take(&mut self, line: &Line, transcript: &mut Transcript) -> Result<bool, AllocError> {
        let Some(said) = parse_event(self.alloc, line)? else {
            return Ok(false);
        };
        self.take_said(said, line.number, transcript)
    }

    /// Takes the end of input, which closes the session. The close is recorded too.
    #[tactic(auto, using(crate::proofs::Recorded::owed))]
    fn end(&mut self, number: u64, transcript: &mut Transcript) -> Result<(), AllocError> {
        self.close(number, transcript)
    }
}
