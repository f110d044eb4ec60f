//! A lock that knows its value.
ghost use Rattle.std.specs.Prelude.{◌≡◌, IfOk};
ghost use Rattle.zs_gate.specs.Locks.{HasTaken};

use atomic_table::{Play, Seat, Table, TableRule};
use std::alloc::{AllocError, Global};
use std::marker::{Model, PhantomData};
use std::sync::Wait;

// The word of a lock: its value is home, is out, or is out and someone may wait for it.
const FREE: u64 = 0;

const HELD: u64 = 1;

const AWAITED: u64 = 2;

/// A fact about each value of a lock, by the lock's key. The key is a value apart from what the lock holds.
pub trait Fact<T, K> {
    ghost holds: { K → T → Type 0 };
}

struct Rule<F> {
    fact: PhantomData<F>,
}

impl<T, K, F: Fact<T, K>> TableRule<Option<T>, K, K> for Rule<F> {
    ghost use Rattle.zs_gate.specs.Locks.{IsLocked};

    ghost holds = { IsLocked F.holds };

    ghost first = { λ key. key };
}

struct Sit;

impl<T, K> Play<Option<T>, K> for Sit {
    ghost use Rattle.zs_gate.specs.Locks.{Sits};

    ghost then = { Sits };
}

struct TakeValue<F> {
    fact: PhantomData<F>,
}

impl<T, K, F: Fact<T, K>> Play<Option<T>, K> for TakeValue<F> {
    ghost use Rattle.zs_gate.specs.Locks.{TakesValue};

    ghost then = { TakesValue F.holds };
}

struct PutValue;

impl<T, K> Play<Option<T>, K> for PutValue {
    ghost use Rattle.zs_gate.specs.Locks.{PutsValue};

    ghost then = { PutsValue };
}

/// A lock round a value of which a fact holds, by a key that is fixed as the lock is made. Contracts see which lock it
/// is and its key, so two holds of one lock find values that agree on the key, which a plain mutex can't tell.
///
/// The value moves out while it is held, and comes back by `Taken::put`.
pub struct KeyedLock<T, K, F: Fact<T, K>> {
    table: Table<Option<T>, K, K, Rule<F>, Global>,
}

impl<T, K, F: Fact<T, K>> Model for KeyedLock<T, K, F> {
    ghost use Rattle.std.specs.Prelude.{◌≡◌};
    ghost use Rattle.zs_gate.specs.Locks.{LockSeen};

    ghost Value = { LockSeen K };

    ghost view = { λ l. record { lock = l.table.shared.table_id; key = l.table.shared.key } };

    ghost invariant = { λ l. (l.table.shared.table_id.words ≡ 1) × (l.table.shared.table_id.slots ≡ 1) };
}

impl<T: Drop, K, F: Fact<T, K>> Drop for KeyedLock<T, K, F> {
    /// Lets go of the table, and so of the value that is home in it.
    fn drop(self) {
        let Self { table: _ } = self;
    }
}

/// The right to put a value back into its lock, and the duty: a program that lets it go doesn't compile, so `?` between
/// `take` and `put` doesn't either. Contracts see the lock.
pub struct Taken<'a, T, K, F: Fact<T, K>> {
    lock: &'a KeyedLock<T, K, F>,
    seat: Seat<Option<T>, K>,
}

impl<'a, T, K, F: Fact<T, K>> Model for Taken<'a, T, K, F> {
    ghost use Rattle.std.specs.Prelude.{◌≡◌};
    ghost use Rattle.zs_gate.specs.Locks.{LockSeen, IsOut};

    ghost Value = { LockSeen K };

    ghost view = { λ t. t.lock.now };

    ghost invariant = { λ t. (t.seat.table_id ≡ t.lock.now.lock) × IsOut t.seat.me };
}

impl<T, K, F: Fact<T, K>> KeyedLock<T, K, F> {
    /// A lock with this key, whose value is home.
    pub fn new(alloc: Global, key: &K, value: T) -> Result<KeyedLock<T, K, F>, AllocError>
    where
        T: Drop,
        requires { F.holds key.now value }
        ensures { IfOk result (λ l. l.key ≡ key.now) }
    {
        let mut slots = Vec::with_capacity(alloc, 1)?;
        slots.push_reserved(Some(value));
        match Table::new(alloc, &[FREE], slots, key) {
            Ok((table, _)) => Ok(KeyedLock { table }),
            Err(_) => Err(AllocError),
        }
    }

    /// Waits until the value is home, and takes it. The fact holds of it by the lock's key.
    pub fn take<R: Wait>(&self, rt: &R) -> (T, Taken<'_, T, K, F>)
        ensures fact { F.holds self.entry.now.key result.0 }
        ensures lock { result.1 ≡ self.entry.now }
    {
        let mut seat = self.hold(rt);
        let Some(value) = self.table.shared.exchange(&mut seat, 0, None) else {
            unreachable!()
        };
        (value, Taken { lock: self, seat })
    }

    // A seat that has taken the value.
    fn hold<R: Wait>(&self, rt: &R) -> Seat<Option<T>, K>
        ensures seat { result.table_id ≡ self.now.lock }
        ensures taken { (result.me.0 ≡ self.now.key) × HasTaken F.holds result.me }
    {
        let shared = &self.table.shared;
        let (_, mut seat) = shared.load_new_seat::<Sit>(0);
        if shared.compare_exchange::<TakeValue<F>>(&mut seat, 0, FREE, HELD) == FREE {
            return seat;
        }
        for _ in rt.forever() {
            if shared.swap::<TakeValue<F>>(&mut seat, 0, AWAITED) == FREE {
                return seat;
            }
            shared.park(rt, 0, AWAITED as u32);
        }
        unreachable!()
    }
}

impl<T, K, F: Fact<T, K>> Taken<'_, T, K, F> {
    /// Puts a value back, of which the fact holds too, and wakes one that waits.
    pub fn put(self, value: T)
        requires { F.holds self.key value }
    {
        let Taken { lock, mut seat } = self;
        let shared = &lock.table.shared;
        let out = shared.exchange(&mut seat, 0, Some(value));
        let None = out else { unreachable!() };
        if shared.swap::<PutValue>(&mut seat, 0, FREE) == AWAITED {
            shared.wake_one(0);
        }
    }
}
