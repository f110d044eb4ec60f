//! A group of notifiers, and those who wait until each is released.
ghost use Rattle.std.specs.Prelude.{◌≡◌, ◌≤◌, IfOk, IfSome};
ghost use Rattle.std.specs.Arc.{arc_value};
ghost use Rattle.atomic_table.specs.Seated.{TableId, table_id_coded};

use crate::events::Events;
use crate::gate::{Gate, NoPass};
use crate::group::Group;
use crate::keeper::Keeper;
use crate::lock::{Fact, KeyedLock};
use crate::pass::Inside;
use crate::post::Sight;
use std::alloc::{AllocError, Global};
use std::marker::Model;
use std::snapshot::Snapshot;
use std::sync::{Arc, Wait};

/// What became of a wait.
#[derive(Clone, Copy, Debug, PartialEq, Eq)]
pub enum Waited {
    /// Every notifier was released, and there will be no other.
    Drained,
    /// The group was closed, so its notifiers may go on.
    WasClosed,
}

// Under the lock of a group lies a gate, which is the key.
struct OfGate;

impl Fact<Group, Snapshot<Keeper>> for OfGate {
    ghost use Rattle.std.specs.Prelude.{◌≡◌};

    ghost holds = { λ gate group. group.gate ≡ gate.value };
}

#[derive(Drop)]
struct Shared {
    lock: KeyedLock<Group, Snapshot<Keeper>, OfGate>,
    sight: Sight,
    // It rises where a notifier was released or the group closed, and those who wait sleep on it.
    events: Events,
    ghost one_gate: { sight ≡ lock.key.value },
}

/// A group hands out notifiers, until someone waits for all of them to be released, or closes it: Zenoh's `SyncGroup`.
/// Contracts see the gate that its notifiers are inside of.
///
/// What a group holds lies under its lock, so no clause says it of another moment.
#[derive(Drop)]
pub struct SyncGroup {
    shared: Arc<Shared, Global>,
}

impl Model for SyncGroup {
    ghost Value = { TableId };

    ghost coded = { table_id_coded };

    ghost view = { λ g. (arc_value g.shared).lock.key.value };
}

/// A member of a group: whoever waits for the group waits for its release. Contracts see the gate that it is inside of.
///
/// It can't be let go, since a group would wait for it for ever: call `release`.
pub struct Notifier {
    shared: Arc<Shared, Global>,
    inside: Inside,
}

impl Model for Notifier {
    ghost Value = { TableId };

    ghost coded = { table_id_coded };

    ghost view = { λ n. n.inside };

    ghost invariant = { λ n. n.inside ≡ (arc_value n.shared).lock.key.value };
}

impl Shared {
    // One look under the lock.
    fn look<R: Wait>(&self, rt: &R) -> Option<Waited> {
        let (group, taken) = self.lock.take(rt);
        let (group, waited) = group.look();
        taken.put(group);
        waited
    }

    // One try for a pass, under the lock.
    fn admit<R: Wait>(&self, rt: &R) -> Result<Option<Inside>, NoPass>
        ensures { IfOk result (λ given. IfSome given (λ inside. inside ≡ self.now.lock.key.value)) }
    {
        let (mut group, taken) = self.lock.take(rt);
        let admitted = group.admit();
        taken.put(group);
        admitted
    }
}

impl SyncGroup {
    /// A group that is open and has no notifier.
    pub fn new(alloc: Global) -> Result<SyncGroup, AllocError> {
        let (door, keeper) = Gate::open(alloc)?;
        let sight = keeper.sight()?;
        let gate = Snapshot::of(&keeper);
        let lock = KeyedLock::new(alloc, &gate, Group::new(door, keeper))?;
        let shared = Shared {
            lock,
            sight,
            events: Events::new(),
        };
        Ok(SyncGroup {
            shared: Arc::new(alloc, shared)?,
        })
    }

    /// Another value of the same group. It takes the allocator as all calls do that can answer want of memory.
    pub fn try_clone(&self, _alloc: Global) -> Result<SyncGroup, AllocError>
        ensures { IfOk result (λ group. group ≡ self.now) }
    {
        Ok(SyncGroup {
            shared: Arc::try_clone(&self.shared)?,
        })
    }

    /// One notifier more; or none, only where the group was closed or someone waits or has waited for it.
    /// Where 4294967295 are out, it waits until one is released.
    pub fn notifier<R: Wait>(&self, rt: &R, _alloc: Global) -> Result<Option<Notifier>, AllocError>
        ensures { IfOk result (λ given. IfSome given (λ notifier. notifier ≡ self.now)) }
    {
        let shared = Arc::try_clone(&self.shared)?;
        for _ in rt.forever() {
            let seen = shared.events.count();
            match shared.admit(rt) {
                Ok(Some(inside)) => return Ok(Some(Notifier { shared, inside })),
                Ok(None) => return Ok(None),
                Err(NoPass::NoMemory) => return Err(AllocError),
                Err(NoPass::Full) => shared.events.sleep(rt, seen),
            }
        }
        unreachable!()
    }

    /// Ends the group: there are no more notifiers, and whoever waits is answered that it was closed.
    pub fn close<R: Wait>(&self, rt: &R) {
        let (group, taken) = self.shared.lock.take(rt);
        taken.put(group.close());
        self.shared.events.tell();
    }

    /// Waits until every notifier is released. From its begin on there are no new ones.
    pub fn wait<R: Wait>(&self, rt: &R) -> Waited {
        for _ in rt.forever() {
            let seen = self.shared.events.count();
            if let Some(waited) = self.shared.look(rt) {
                return waited;
            }
            self.shared.events.sleep(rt, seen);
        }
        unreachable!()
    }

    /// Whether there are no more notifiers: true after `close`, and after a `wait` that returned.
    pub fn is_closed(&self) -> bool {
        self.shared.sight.is_marked()
    }

    /// How many notifiers aren't released.
    pub fn num_active_notifiers<R: Wait>(&self, rt: &R) -> u64
        ensures { result ≤ 4294967295 }
    {
        let (group, taken) = self.shared.lock.take(rt);
        let out = group.out();
        taken.put(group);
        u64::from(out)
    }
}

impl Notifier {
    /// Ends the notifier, and wakes whoever waits for it.
    pub fn release<R: Wait>(self, rt: &R) {
        let Notifier { shared, inside } = self;
        let (mut group, taken) = shared.lock.take(rt);
        group.dismiss(inside);
        taken.put(group);
        shared.events.tell();
    }
}
