//! Linked sessions driven by lines.

ghost use Rattle.std.specs.Prelude.{◌≡◌, ℕ, ◌+◌, true, false, is_some, ◌++◌, List, [], ◌∷◌, length, IsTrue, IfOk, IfSome, OnOk, OnErr, codes};
ghost use Rattle.std.specs.String.{string_bytes};
ghost use Rattle.zs_driving.specs.Tasks.{Rules};
ghost use Rattle.zs_driving.specs.Languages.{rules_of};
ghost use Rattle.zs_core.specs.Types.{Settings};
ghost use Rattle.zs_core.specs.Settings.{is_valid};
ghost use Rattle.zs_delivery.specs.Linked.{Take, Deliver};
ghost use Rattle.zs_delivery.specs.Links.{is_net};
ghost use Rattle.zs_grammar.specs.Grammar.{event_of};
ghost use Rattle.zs_link.specs.World.{AreNew};
ghost use Rattle.zs_link.specs.Mode.{link_language, link_line, said_in, line_named, line_at, linkable_of, if_linkable, is_linkable};
ghost use Rattle.zs_link.specs.Machine.{IsBehind, TakesLine, TakesEnd};

use crate::printing::{add_both, add_delivered, add_turn};
use crate::world::LinkWorld;
use std::alloc::{AllocError, Global};
use zs_core::Settings;
use zs_delivery::LinkSide;
use zs_driving::{LineMachine, Transcript};
use zs_events::{Chan, Event, ScriptEvent};
use zs_lines::Line;
use zs_script::{after_prefix, parse_event};

/// Two linked sessions that take lines.
#[derive(Drop)]
pub struct LinkMachine {
    alloc: Global,
    world: LinkWorld,
    /// Where each turn is printed; its memory outlives the lines.
    printed: String,
}

impl LinkMachine {
    /// Two new sessions.
    pub fn new(alloc: Global, settings: &Settings) -> Result<LinkMachine, AllocError>
        requires { IsTrue (is_valid settings.now) }
        ensures { IfOk result (λ made. AreNew made.world settings.now) }
    {
        let world = LinkWorld::new(alloc, settings)?;
        Ok(LinkMachine {
            alloc,
            world,
            printed: String::new(alloc),
        })
    }

    /// Takes a row of bytes. False says that it is no line.
    #[tactic(auto, using(crate::proofs::Rows::utf8_tests))]
    fn take_row(
        &mut self,
        row: &[u8],
        number: u64,
        transcript: &mut Transcript,
    ) -> Result<bool, AllocError>
        ensures known { IfOk result (λ taken. taken ≡ is_some (link_line row.now)) }
        ensures took { result ≡ Ok true → IfSome (link_line row.now) (λ said. TakesLine said number self.old.world self.new.world transcript.old transcript.new) }
        ensures none { result ≡ Ok false → transcript.new ≡ transcript.old }
        ensures err { OnErr result (transcript.new ≡ transcript.old) }
    {
        let Ok(text) = str::from_utf8(row) else {
            return Ok(false);
        };
        self.take_said(text, number, transcript)
    }

    /// Takes a row of text.
    fn take_said(
        &mut self,
        text: &str,
        number: u64,
        transcript: &mut Transcript,
    ) -> Result<bool, AllocError>
        ensures known { IfOk result (λ taken. taken ≡ is_some (said_in text.now)) }
        ensures took { result ≡ Ok true → IfSome (said_in text.now) (λ said. TakesLine said number self.old.world self.new.world transcript.old transcript.new) }
        ensures none { result ≡ Ok false → transcript.new ≡ transcript.old }
        ensures err { OnErr result (transcript.new ≡ transcript.old) }
    {
        match text {
            "ab" => self.deliver(LinkSide::A, number, transcript),
            "ba" => self.deliver(LinkSide::B, number, transcript),
            _ => self.take_text(text, number, transcript),
        }
    }

    /// Takes a row that names a side.
    fn take_text(
        &mut self,
        text: &str,
        number: u64,
        transcript: &mut Transcript,
    ) -> Result<bool, AllocError>
        ensures known { IfOk result (λ taken. taken ≡ is_some (line_named text.now)) }
        ensures took { result ≡ Ok true → IfSome (line_named text.now) (λ said. TakesLine said number self.old.world self.new.world transcript.old transcript.new) }
        ensures none { result ≡ Ok false → transcript.new ≡ transcript.old }
        ensures err { OnErr result (transcript.new ≡ transcript.old) }
    {
        if let Some(rest) = after_prefix(text, "a\t") {
            return self.take_at(LinkSide::A, rest, number, transcript);
        }
        match after_prefix(text, "b\t") {
            Some(rest) => self.take_at(LinkSide::B, rest, number, transcript),
            None => Ok(false),
        }
    }

    /// Has a side take a line of a script.
    fn take_at(
        &mut self,
        side: LinkSide,
        rest: &str,
        number: u64,
        transcript: &mut Transcript,
    ) -> Result<bool, AllocError>
        ensures known { IfOk result (λ taken. taken ≡ is_some (line_at side rest.now)) }
        ensures took { result ≡ Ok true → IfSome (line_at side rest.now) (λ said. TakesLine said number self.old.world self.new.world transcript.old transcript.new) }
        ensures none { result ≡ Ok false → transcript.new ≡ transcript.old }
        ensures err { OnErr result (transcript.new ≡ transcript.old) }
    {
        let Some(event) = linkable_event(self.alloc, rest, number)? else {
            return Ok(false);
        };
        let taken = self.take_event(side, &event, number, transcript);
        drop(event);
        taken?;
        Ok(true)
    }

    /// Has a side take an event of its application.
    fn take_event(
        &mut self,
        side: LinkSide,
        event: &Event,
        number: u64,
        transcript: &mut Transcript,
    ) -> Result<(), AllocError>
        requires { is_net event.now ≡ false }
        ensures took { OnOk result (TakesLine (Take side event.now) number self.old.world self.new.world transcript.old transcript.new) }
        ensures err { OnErr result (transcript.new ≡ transcript.old) }
    {
        let turn = self.world.take(side, event)?;
        let added = add_turn(&mut self.printed, transcript, number, side, turn.get());
        drop(turn);
        added
    }

    /// Delivers the oldest message of a side.
    fn deliver(
        &mut self,
        from: LinkSide,
        number: u64,
        transcript: &mut Transcript,
    ) -> Result<bool, AllocError>
        ensures known { IfOk result (λ taken. taken ≡ true) }
        ensures took { OnOk result (TakesLine (Deliver from) number self.old.world self.new.world transcript.old transcript.new) }
        ensures err { OnErr result (transcript.new ≡ transcript.old) }
    {
        let delivered = self.world.deliver(from)?;
        let added = add_delivered(&mut self.printed, transcript, number, from, &delivered);
        drop(delivered);
        added?;
        Ok(true)
    }

    /// Closes the first session, and then the second, under one number.
    fn close(&mut self, number: u64, transcript: &mut Transcript) -> Result<(), AllocError>
        ensures took { OnOk result (TakesEnd number self.old.world transcript.old transcript.new) }
        ensures err { OnErr result (transcript.new ≡ transcript.old) }
    {
        let close = Event::Close;
        let closed = self.close_both(&close, number, transcript);
        drop(close);
        closed
    }

    /// It is `close` with the event that it is.
    fn close_both(
        &mut self,
        close: &Event,
        number: u64,
        transcript: &mut Transcript,
    ) -> Result<(), AllocError>
        requires { close.now ≡ Event.Close }
        ensures took { OnOk result (TakesEnd number self.old.world transcript.old transcript.new) }
        ensures err { OnErr result (transcript.new ≡ transcript.old) }
    {
        let first = self.world.take(LinkSide::A, close)?;
        let second = match self.world.take(LinkSide::B, close) {
            Ok(second) => second,
            Err(why) => {
                drop(first);
                return Err(why);
            }
        };
        let added = add_both(
            &mut self.printed,
            transcript,
            number,
            first.get(),
            second.get(),
        );
        drop(first);
        drop(second);
        added
    }
}

impl LineMachine for LinkMachine {
    ghost is_line = { λ row. is_some (link_line row) };

    ghost rules = { λ machine. rules_of (link_language machine.world.a.world.settings) };

    ghost took = { IsBehind };

    ghost closed = { λ machine r h. Unit {0} };

    /// Takes a line for one of the sessions, or a delivery between them. What comes of it goes onto the transcript.
    fn take(&mut self, line: &Line, transcript: &mut Transcript) -> Result<bool, AllocError> {
        self.take_row(&line.bytes, line.number, transcript)
    }

    /// At the end of input both sessions close. What they make of it goes onto the transcript.
    fn end(&mut self, number: u64, transcript: &mut Transcript) -> Result<(), AllocError> {
        self.close(number, transcript)
    }
}

/// The event of a line of a script, if it is one of an application and has no channel.
fn linkable_event(alloc: Global, text: &str, number: u64) -> Result<Option<Event>, AllocError>
    ensures { IfOk result (λ found. found ≡ linkable_of (event_of text.now)) }
{
    let mut bytes = Vec::with_capacity(alloc, text.len())?;
    bytes.extend_from_slice(text.as_bytes())?;
    let line = Line { number, bytes };
    let said = parse_event(alloc, &line);
    drop(line);
    match said? {
        Some(ScriptEvent::Core(event)) => Ok(if_linkable(event)),
        Some(read) => {
            drop(read);
            Ok(None)
        }
        None => Ok(None),
    }
}

/// The event, if it is one of an application and has no channel.
fn if_linkable(event: Event) -> Option<Event>
    ensures { result ≡ if_linkable event }
{
    if is_linkable(&event) {
        Some(event)
    } else {
        drop(event);
        None
    }
}

/// Whether an event is one of an application and has no channel.
fn is_linkable(event: &Event) -> bool
    ensures { result ≡ is_linkable event.now }
{
    !matches!(event, Event::Net(_)) && matches!(event.channel(), Chan::Print)
}
