//! The session and what it keeps.

ghost use Rattle.std.specs.Prelude.{◌≡◌, ◌≤◌, ◌<◌, [], ◌++◌, length, take, drop, min, None, IsTrue, IfOk, OnOk, OnErr, IfErr, slice_get};
ghost use Rattle.std.specs.Option.{option_copied};
ghost use Rattle.zs_core.specs.Changes.{Fits, with_change};
ghost use Rattle.zs_core.specs.Settings.{is_valid};
ghost use Rattle.zs_events.specs.declared.event.Event.TheVariants.{Close};
ghost use Rattle.zs_line_session.specs.declared.session.LineFault.TheVariants.{NoMemory};
ghost use Rattle.zs_line_session.specs.Lined.{opened, session_event, Takes, TakesLine, Makes, IsCause};
ghost use Rattle.zs_grammar.specs.Grammar.{event_of};
ghost use Rattle.zs_printing.specs.Printing.{turn_text};

use crate::kept::KeptText;
use std::alloc::{AllocError, Global};
use std::collections::VecDeque;
use std::marker::Model;
use thiserror::Error;
use zs_core::{Answer, Change, Effect, Event, SessionState, Settings, Turn};
use zs_events::ScriptEvent;
use zs_script::{Line, append_turn, parse_event};

/// Why a line was not taken.
#[derive(Clone, Copy, Debug, PartialEq, Eq, Error)]
pub enum LineFault {
    /// It is longer than the settings allow.
    #[error("the line is too long")]
    TooLong,
    /// It is no event of the session: not UTF-8, of no form of the language, or the read of a channel, which this session doesn't have.
    #[error("the line is no event")]
    NoEvent,
    /// Want of memory.
    #[error("no memory")]
    NoMemory,
}

/// A session that takes lines and keeps the text of its turns, and takes events and keeps their effects.
///
/// Contracts see the tables of its session, the text and the effects that were not read yet, and the longest line that it takes.
#[derive(Drop)]
pub struct LineSession {
    alloc: Global,
    state: SessionState,
    line_max: u32,
    /// Where each turn's text is printed; its memory outlives the turns.
    printed: String,
    kept: KeptText,
    effects: VecDeque<Effect>,
}

impl Model for LineSession {
    ghost use Rattle.zs_line_session.specs.Lined.{Lined};

    ghost Value = { Lined };

    ghost view = { λ s. record { world = s.state; text = s.kept; effects = s.effects.items; line_max = s.line_max } };
}

impl LineSession {
    /// An open session in which nothing is declared, with no text and no effects. It keeps the allocator.
    pub fn open(alloc: Global, settings: &Settings) -> Result<LineSession, AllocError>
        requires { IsTrue (is_valid settings.now) }
        ensures { IfOk result (λ made. made ≡ opened settings.now) }
    {
        let state = SessionState::new(alloc, settings)?;
        Ok(LineSession {
            alloc,
            state,
            line_max: settings.line_max,
            printed: String::new(alloc),
            kept: KeptText::new(alloc),
            effects: VecDeque::new(alloc),
        })
    }

    /// Takes a line, and keeps the text of its turn, whose lines begin with `number`, behind what was kept.
    ///
    /// # Errors
    ///
    /// Those of `LineFault`. The session and what it keeps are then as they were.
    pub fn take_line(&mut self, number: u64, line: &[u8]) -> Result<(), LineFault>
        ensures ok { OnOk result (TakesLine self.old self.new number line.now) }
        ensures err { OnErr result (self.new ≡ self.old) }
        ensures cause { IfErr result (λ fault. IsCause fault self.old line.now) }
    {
        if line.len() > self.line_max as usize {
            return Err(LineFault::TooLong);
        }
        match read_event(self.alloc, number, line) {
            Ok(Some(event)) => self.take_own(event, number),
            Ok(None) => Err(LineFault::NoEvent),
            Err(_) => Err(LineFault::NoMemory),
        }
    }

    /// It is `take_event` of an event that is let go then.
    fn take_own(&mut self, event: Event, number: u64) -> Result<(), LineFault>
        ensures ok { OnOk result (Takes self.old self.new number event) }
        ensures err { OnErr result (self.new ≡ self.old) }
        ensures cause { IfErr result (λ fault. fault ≡ NoMemory) }
    {
        let taken = self.take_event(number, &event);
        drop(event);
        match taken {
            Ok(()) => Ok(()),
            Err(_) => Err(LineFault::NoMemory),
        }
    }

    /// Closes the session, as a line does that says so.
    pub fn close(&mut self, number: u64) -> Result<(), AllocError>
        ensures ok { OnOk result (Takes self.old self.new number Close) }
        ensures err { OnErr result (self.new ≡ self.old) }
    {
        self.take_event(number, &Event::Close)
    }

    /// Takes an event, and keeps the text of its turn, whose lines begin with `number`, behind what was kept. At an `Err` the
    /// session and what it keeps are as they were.
    pub fn take_event(&mut self, number: u64, event: &Event) -> Result<(), AllocError>
        ensures ok { OnOk result (Takes self.old self.new number event.now) }
        ensures err { OnErr result (self.new ≡ self.old) }
    {
        let waiting = self.kept.len();
        let made = self.state.plan(event)?;
        let (turn, change) = made.into_parts();
        let told = self.keep(number, &turn);
        drop(turn);
        match told {
            Ok(()) => self.apply(change, waiting),
            Err(_) => {
                drop(change);
                Err(AllocError)
            }
        }
    }

    /// Keeps the text of a turn.
    fn keep(&mut self, number: u64, turn: &Turn) -> Result<(), AllocError>
        ensures ok { OnOk result (self.new ≡ record self.old { text = self.old.text ++ turn_text number turn.now }) }
        ensures err { OnErr result (self.new ≡ self.old) }
    {
        self.printed.clear();
        append_turn(&mut self.printed, number, turn)?;
        self.kept.add(self.printed.as_bytes())
    }

    /// Makes a change that fits. For want of memory it lets go of the text behind the first `waiting` bytes.
    fn apply(&mut self, change: Change, waiting: usize) -> Result<(), AllocError>
        requires fits { Fits self.old.world change }
        requires waiting { waiting ≤ length self.old.text }
        ensures ok { OnOk result (self.new ≡ record self.old { world = with_change change self.old.world }) }
        ensures err { OnErr result (self.new ≡ record self.old { text = take waiting self.old.text }) }
    {
        match self.state.apply(change) {
            Ok(()) => Ok(()),
            Err(_) => {
                self.kept.truncate(waiting);
                Err(AllocError)
            }
        }
    }

    /// Takes an event, and keeps its effects behind those that were kept. At an `Err` the session and what it keeps are as they were.
    pub fn take(&mut self, event: &Event) -> Result<Answer, AllocError>
        ensures ok { IfOk result (λ answer. Makes self.old self.new event.now answer) }
        ensures err { OnErr result (self.new ≡ self.old) }
    {
        let made = self.state.plan(event)?;
        let (turn, change) = made.into_parts();
        let Turn { answer, effects } = turn;
        let mut effects = VecDeque::from_vec(effects.into_vec());
        if self.effects.reserve(effects.len()).is_err() {
            drop(effects);
            drop(change);
            return Err(AllocError);
        }
        match self.state.apply(change) {
            Ok(()) => {
                // There is room, so it succeeds.
                let _moved = self.effects.append(&mut effects);
                drop(effects);
                Ok(answer)
            }
            Err(_) => {
                drop(effects);
                Err(AllocError)
            }
        }
    }

    /// The first effect that waits, if one does.
    pub fn first_effect(&self) -> Option<&Effect>
        ensures { option_copied result ≡ slice_get self.now.effects 0 }
    {
        self.effects.front()
    }

    /// Lets go of the first effect that waits.
    pub fn drop_effect(&mut self)
        ensures { self.new ≡ record self.old { effects = drop 1 self.old.effects } }
    {
        drop(self.effects.pop_front());
    }

    /// How many effects wait.
    pub fn effect_count(&self) -> usize
        ensures { result ≡ length self.now.effects }
    {
        self.effects.len()
    }

    /// How many bytes of text wait to be read.
    pub fn waiting(&self) -> usize
        ensures { result ≡ length self.now.text }
    {
        self.kept.len()
    }

    /// Moves as many bytes of the text as there are and fit to the front of `out`, and returns how many. The rest waits.
    pub fn read_text(&mut self, out: &mut [u8]) -> usize
        ensures count { result ≡ min (length out.old) (length self.old.text) }
        ensures written { out.new ≡ take result self.old.text ++ drop result out.old }
        ensures left { self.new ≡ record self.old { text = drop result self.old.text } }
    {
        self.kept.read(out)
    }
}

/// The session's event that a line is, if it is one.
fn read_event(alloc: Global, number: u64, line: &[u8]) -> Result<Option<Event>, AllocError>
    ensures { IfOk result (λ found. found ≡ session_event (event_of line.now)) }
{
    let bytes = Vec::from_slice(alloc, line)?;
    let said = parse_event(alloc, &Line { number, bytes })?;
    Ok(own_event(said))
}

/// The event of the session, where what a line says is one.
fn own_event(said: Option<ScriptEvent>) -> Option<Event>
    ensures { result ≡ session_event said }
{
    match said {
        Some(ScriptEvent::Core(event)) => Some(event),
        other => {
            drop(other);
            None
        }
    }
}
