//! A session without handlers: each turn is read by whoever gave the event.

ghost use Rattle.std.specs.Prelude.{◌≡◌, [], IsTrue, IfOk, OnErr};
ghost use Rattle.zs_core.specs.Settings.{is_valid};
ghost use Rattle.zs_core.specs.Stands.{Stands, TakesStep, ClosedIs};

use std::alloc::{AllocError, Global};
use std::marker::Model;
use zs_core::{Event, Settings, Turn};
use zs_gate::NoPass;
use zs_session_cell::{CellState, NoHandler, let_ended_go, turn_alone};
use zs_shared::Shared;

/// A session whose cell holds no handler and keeps no message, so that it holds no more than what is live. Contracts see
/// its core's tables.
#[derive(Drop)]
pub(crate) struct QuietSession {
    cell: CellState<NoHandler>,
}

impl Model for QuietSession {
    ghost use Rattle.zs_core.specs.World.{World};
    ghost use Rattle.zs_session.specs.Quiet.{IsQuiet};

    ghost Value = { World };

    ghost view = { λ s. s.cell.world };

    ghost invariant = { λ s. IsQuiet s.cell };
}

impl QuietSession {
    /// A new session, in which nothing is declared.
    #[tactic(auto, using(crate::proofs::Quietly::stands_new))]
    pub(crate) fn new(alloc: Global, settings: &Settings) -> Result<QuietSession, AllocError>
        requires { IsTrue (is_valid settings.now) }
        ensures { IfOk result (λ new. Stands new settings.now []) }
    {
        let cell = CellState::new(alloc, settings, false)?;
        Ok(QuietSession { cell })
    }

    /// Takes an event, and lets the gates go that it ended.
    ///
    /// # Errors
    ///
    /// Want of memory alone. Then nothing has changed.
    pub(crate) fn step(&mut self, event: &Event) -> Result<Shared<Turn>, AllocError>
        ensures ok { IfOk result (λ turn. TakesStep self.old self.new event.now turn) }
        ensures err { OnErr result (self.new ≡ self.old) }
    {
        let turn = self.take(event)?;
        self.let_ended_go();
        Ok(turn)
    }

    /// It is `step` but for the gates.
    fn take(&mut self, event: &Event) -> Result<Shared<Turn>, AllocError>
        ensures ok { IfOk result (λ turn. TakesStep self.old self.new event.now turn) }
        ensures err { OnErr result (self.new ≡ self.old) }
    {
        match self.cell.take(event, &None, 0) {
            Ok(taken) => Ok(turn_alone(taken)),
            Err(NoPass::NoMemory) => Err(AllocError),
            Err(NoPass::Full) => unreachable!(),
        }
    }

    /// Lets the gates go that were ended.
    fn let_ended_go(&mut self)
        ensures { self.new ≡ self.old }
    {
        let_ended_go(&mut self.cell);
    }

    /// Whether the session was closed.
    #[tactic(auto, using(crate::proofs::Quietly::closed_so))]
    pub(crate) fn is_closed(&self) -> bool
        ensures told { ClosedIs self.now result }
    {
        self.cell.is_closed()
    }
}
