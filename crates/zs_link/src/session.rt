//! One of two linked sessions.

ghost use Rattle.std.specs.Prelude.{◌≡◌, IsTrue, IfOk, OnErr, length, slice_get};
ghost use Rattle.zs_core.specs.Settings.{is_valid};
ghost use Rattle.zs_link.specs.World.{IsNew, TakesEvent, without_first};

use std::alloc::{AllocError, Global};
use std::marker::Model;
use zs_core::Settings;
use zs_events::{Event, Turn};
use zs_gate::NoPass;
use zs_session_cell::{CellState, NoHandler, let_ended_go, turn_alone};
use zs_shared::Shared;
use zs_wire::Message;

/// A session whose messages wait for the other one. Contracts see its core's tables and those messages, the oldest first.
#[derive(Drop)]
pub(crate) struct LinkedSession {
    cell: CellState<NoHandler>,
}

impl Model for LinkedSession {
    ghost use Rattle.zs_link.specs.World.{SideSeen, IsWithoutHandlers};

    ghost Value = { SideSeen };

    ghost view = { λ s. record { world = s.cell.world; waiting = s.cell.exchange.outbox } };

    ghost invariant = { λ s. IsWithoutHandlers s.cell };
}

impl LinkedSession {
    /// A new session, of which no message waits.
    pub(crate) fn new(alloc: Global, settings: &Settings) -> Result<LinkedSession, AllocError>
        requires { IsTrue (is_valid settings.now) }
        ensures { IfOk result (λ new. IsNew new settings.now) }
    {
        let cell = CellState::new(alloc, settings, true)?;
        Ok(LinkedSession { cell })
    }

    /// Takes an event, and lets the gates go that it ended. What it sends waits behind the rest.
    ///
    /// # Errors
    ///
    /// Want of memory alone. Then nothing has changed.
    pub(crate) fn take(&mut self, event: &Event) -> Result<Shared<Turn>, AllocError>
        ensures ok { IfOk result (λ turn. TakesEvent event.now self.old turn self.new) }
        ensures err { OnErr result (self.new ≡ self.old) }
    {
        let turn = self.take_event(event)?;
        self.let_ended_go();
        Ok(turn)
    }

    /// It is `take` but for the gates.
    fn take_event(&mut self, event: &Event) -> Result<Shared<Turn>, AllocError>
        ensures ok { IfOk result (λ turn. TakesEvent event.now self.old turn self.new) }
        ensures err { OnErr result (self.new ≡ self.old) }
    {
        match self.cell.take(event, &None, 0) {
            Ok(taken) => Ok(turn_alone(taken)),
            Err(NoPass::NoMemory) => Err(AllocError),
            Err(NoPass::Full) => unreachable!(),
        }
    }

    /// Lets the gates go that were ended.
    fn let_ended_go(&mut self)
        ensures { self.new ≡ self.old }
    {
        let_ended_go(&mut self.cell);
    }

    /// The oldest message that waits, in the place where it stands.
    pub(crate) fn first(&self) -> Result<Option<Shared<Message>>, AllocError>
        ensures { IfOk result (λ first. first ≡ slice_get self.now.waiting 0) }
    {
        match self.cell.first() {
            Some(message) => Ok(Some(message.try_clone()?)),
            None => Ok(None),
        }
    }

    /// Lets the oldest message go, if there is one.
    pub(crate) fn drop_first(&mut self)
        ensures { self.new ≡ without_first self.old }
    {
        let first = self.cell.drain();
        drop(first);
    }

    /// How many messages wait.
    pub(crate) fn waiting(&self) -> usize
        ensures { result ≡ length self.now.waiting }
    {
        self.cell.waiting()
    }
}
