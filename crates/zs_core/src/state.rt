//! The session's state: the calls that change it by events, and those that read it.

ghost use Rattle.std.specs.Prelude.{◌≡◌, [], true, IsTrue, IfOk, OnOk, OnErr};
ghost use Rattle.zs_events.specs.Turn.{was_refused};
ghost use Rattle.zs_model.specs.Settings.{is_valid};
ghost use Rattle.zs_world.specs.Changes.{Fits, with_change};
ghost use Rattle.zs_world.specs.Decisions.{decision, with_listeners};
ghost use Rattle.zs_standing.specs.Stands.{world_after, TakesStep, Previews, ClosedIs, NowIs, IsHeld, IsLive, IsTaken};
ghost use Rattle.zs_standing.specs.Plans.{Plans};
ghost use Rattle.zs_core.specs.Keeping.{KeepsGroups};

mod recipients;

use crate::readings;
use std::alloc::{AllocError, Global};
use std::marker::Model;
use zs_decide::decide_alone;
use zs_events::{Event, Kind, Turn};
use zs_hearing::hear;
use zs_model::Settings;
use zs_wire::EntityGlobalId;
use zs_world::{Change, Decision, SessionTables};

/// A session: what the application declared, and the numbers that it draws next. It changes by `step` alone, or by `apply` with
/// the change of a `plan`.
/// Contracts see it as a `World` of plain lists and counters.
#[derive(Drop)]
pub struct SessionState {
    world: SessionTables,
}

impl Model for SessionState {
    ghost use Rattle.zs_world.specs.World.{World};

    ghost Value = { World };

    ghost view = { λ s. s.world };

    ghost use Rattle.zs_core.specs.Keeping.{KeepsGroups};

    ghost invariant = { λ s. KeepsGroups s.world };
}

impl SessionState {
    /// An open session in which nothing is declared. It keeps the allocator.
    pub fn new(alloc: Global, settings: &Settings) -> Result<SessionState, AllocError>
        requires { IsTrue (is_valid settings.now) }
        ensures { IfOk result (λ state. state ≡ world_after settings.now []) }
    {
        let world = SessionTables::new(alloc, settings)?;
        Ok(SessionState { world })
    }

    /// The turn that the event would have, and what it would change.
    fn decide(&self, event: &Event) -> Result<Decision, AllocError>
        ensures { IfOk result (λ made. made ≡ with_listeners self.now (decision self.now event.now)) }
    {
        let Decision { turn, change } = decide_alone(&self.world, event)?;
        let Turn {
            answer,
            mut effects,
        } = turn;
        hear(&self.world, &change, &mut effects)?;
        Ok(Decision {
            turn: Turn { answer, effects },
            change,
        })
    }

    /// What `step` would make of the event: the turn that it would give, and what it would change. Whoever has to find room
    /// of its own for a turn does so between this and `apply`.
    pub fn plan(&self, event: &Event) -> Result<Decision, AllocError>
        ensures { IfOk result (λ made. Plans self.now event.now made) }
    {
        self.decide(event)
    }

    /// The turn that `step` would give for the event.
    pub fn preview(&self, event: &Event) -> Result<Turn, AllocError>
        ensures { IfOk result (λ turn. Previews self.now event.now turn) }
    {
        let made = self.plan(event)?;
        let (turn, change) = made.into_parts();
        drop(change);
        Ok(turn)
    }

    /// Takes one event: gives its turn, and changes the session as the event says. What takes memory comes
    /// first, so at an `Err` the session is as it was.
    pub fn step(&mut self, event: &Event) -> Result<Turn, AllocError>
        ensures ok { IfOk result (λ turn. TakesStep self.old self.new event.now turn) }
        ensures refused { IfOk result (λ turn. was_refused turn.answer ≡ true → self.new ≡ self.old) }
        ensures err { OnErr result (self.new ≡ self.old) }
    {
        let made = self.plan(event)?;
        let (turn, change) = made.into_parts();
        self.apply(change)?;
        Ok(turn)
    }

    /// Makes a change that fits. At an `Err` the session is as it was.
    pub fn apply(&mut self, change: Change) -> Result<(), AllocError>
        requires { Fits self.old change }
        ensures ok { OnOk result (self.new ≡ with_change change self.old) }
        ensures err { OnErr result (self.new ≡ self.old) }
    {
        self.world.apply(change)
    }

    /// Of any session it is so, whatever was done to it: for each kind of entities that share declarations, a text has one group
    /// at most, and its members are just those entities that share the text, in ascending number. It does nothing.
    pub fn keeps_groups(&self)
        ensures { KeepsGroups self.now }
    {
        let _ = &self.world;
    }

    /// The session's own identifier in the network, its ZenohId.
    pub fn zid(&self) -> u128
        ensures { result ≡ self.now.settings.zid }
    {
        self.world.zid()
    }

    /// The session as an entity of the network: its identifier, and the number that its settings give it.
    pub fn id(&self) -> EntityGlobalId
        ensures { result ≡ record { zid = self.now.settings.zid; eid = self.now.settings.entity_start } }
    {
        self.world.id()
    }

    /// The greatest moment that has come, 0 where none has.
    pub fn now(&self) -> u64
        ensures now { result ≡ self.now.asking.moment }
        ensures told { NowIs self.now result }
    {
        readings::now(&self.world)
    }

    /// Whether the session was closed.
    pub fn is_closed(&self) -> bool
        ensures now { result ≡ self.now.closed }
        ensures told { ClosedIs self.now result }
    {
        readings::is_closed(&self.world)
    }

    /// Whether that number is held: a key that the session declared under it was not given back as often as it was declared.
    pub fn held(&self, number: u16) -> bool
        ensures { IsHeld self.now number result }
    {
        readings::held(&self.world, number)
    }

    /// Whether that cancellation token was taken: a cancel named it, while the session was open.
    pub fn is_taken(&self, token: u32) -> bool
        ensures { IsTaken self.now token result }
    {
        readings::is_taken(&self.world, token)
    }

    /// Whether the application declared something of that kind under that number which lives still, or asked a get under it that
    /// is open.
    pub fn is_live(&self, kind: Kind, id: u32) -> bool
        ensures { IsLive self.now kind id result }
    {
        readings::is_live(&self.world, kind, id)
    }
}
