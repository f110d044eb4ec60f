//! What a group's lock guards: a gate with its door and its keeper.
ghost use Rattle.std.specs.Prelude.{◌≡◌, ◌≢◌, ◌+◌, ◌↔◌, IfOk, IfSome, IfNone, OnErr};
ghost use Rattle.zs_gate.specs.declared.watch.Watch.TheVariants.{Open, Drained as IsDrained};
ghost use Rattle.zs_gate.specs.Groups.{watch_after_close, gate_of, IsWaiting, IsClosed};

use crate::gate::{Door, NoPass};
use crate::keeper::{Draining, Keeper};
use crate::pass::Inside;
use crate::sync_group::Waited;
use crate::watch::Watch;
use std::marker::Model;

// To a contract it is its gate, the passes that are out, and how far its keeper has come.
#[derive(Drop)]
pub struct Group {
    door: Door,
    watch: Watch,
}

impl Model for Group {
    ghost use Rattle.std.specs.Prelude.{◌≡◌};
    ghost use Rattle.zs_gate.specs.Groups.{GroupSeen, gate_of};

    ghost Value = { GroupSeen };

    ghost view = { λ g. record { gate = g.door.gate; out = g.door.out; watch = g.watch } };

    ghost invariant = { λ g. g.door.gate ≡ gate_of g.watch };
}

impl Group {
    /// A group whose gate is open and that no one waits for. The door and the keeper are of one gate.
    pub fn new(door: Door, keeper: Keeper) -> Group
        requires { door.gate ≡ keeper }
        ensures { result ≡ record { gate = keeper; out = door.out; watch = Open keeper } }
    {
        Group {
            door,
            watch: Watch::Open(keeper),
        }
    }

    // How many passes are out.
    pub fn out(&self) -> u32
        ensures { result ≡ self.now.out }
    {
        self.door.out
    }

    // A pass more, which is inside; or none, where it found the mark, so never while the watch is open.
    pub fn admit(&mut self) -> Result<Option<Inside>, NoPass>
        ensures some { IfOk result (λ given. IfSome given (λ inside. (inside ≡ self.old.gate) × (self.new ≡ record self.old { out = self.old.out + 1 }))) }
        ensures none { IfOk result (λ given. IfNone given (self.new ≡ self.old)) }
        ensures marked { IfOk result (λ given. IfNone given (self.old.watch ≢ Open self.old.gate)) }
        ensures full { (result ≡ Err NoPass.Full) ↔ (self.old.out ≡ 4294967295) }
        ensures err { OnErr result (self.new ≡ self.old) }
    {
        match self.door.pass()?.enter() {
            Ok(inside) => Ok(Some(inside)),
            Err(pass) => {
                if let Watch::Open(keeper) = &mut self.watch {
                    keeper.excludes(pass);
                    unreachable!()
                }
                self.door.take_back(pass);
                Ok(None)
            }
        }
    }

    // A pass that is inside leaves, and is out no more.
    pub fn dismiss(&mut self, inside: Inside)
        requires { inside ≡ self.old.gate }
        ensures { (self.new ≡ record self.old { out = self.new.out }) × (self.new.out + 1 ≡ self.old.out) }
    {
        self.door.take_back(inside.leave());
    }

    // Marks the gate. Whoever waits is to wait no longer.
    pub fn close(self) -> Group
        ensures { result ≡ record self { watch = watch_after_close self.watch } }
    {
        let Group { door, watch } = self;
        let watch = match watch {
            Watch::Open(keeper) => Watch::Closed(keeper.drain()),
            Watch::Draining(draining) => Watch::Closed(draining),
            Watch::Closed(draining) => Watch::Closed(draining),
            Watch::Drained(drained) => Watch::Drained(drained),
        };
        Group { door, watch }
    }

    // Marks the gate and looks, unless the group was closed before. It answers nothing while someone is inside.
    pub fn look(self) -> (Group, Option<Waited>)
        ensures same { (result.0.gate ≡ self.gate) × (result.0.out ≡ self.out) }
        ensures drained { result.1 ≡ Some Waited.Drained → result.0.watch ≡ IsDrained self.gate }
        ensures closed { (result.1 ≡ Some Waited.WasClosed) ↔ IsClosed self.watch }
        ensures left { IsClosed self.watch → result.0 ≡ self }
        ensures none { result.1 ≡ None → IsWaiting result.0.watch }
    {
        let Group { door, watch } = self;
        let (watch, waited) = match watch {
            Watch::Open(keeper) => look_once(keeper.drain()),
            Watch::Draining(draining) => look_once(draining),
            Watch::Closed(draining) => (Watch::Closed(draining), Some(Waited::WasClosed)),
            Watch::Drained(drained) => (Watch::Drained(drained), Some(Waited::Drained)),
        };
        (Group { door, watch }, waited)
    }
}

// One look.
fn look_once(draining: Draining) -> (Watch, Option<Waited>)
    ensures gate { gate_of result.0 ≡ draining.gate }
    ensures drained { result.1 ≡ Some Waited.Drained → result.0 ≡ IsDrained draining.gate }
    ensures closed { result.1 ≢ Some Waited.WasClosed }
    ensures none { result.1 ≡ None → IsWaiting result.0 }
{
    match draining.look() {
        Ok(drained) => (Watch::Drained(drained), Some(Waited::Drained)),
        Err(draining) => (Watch::Draining(draining), None),
    }
}
