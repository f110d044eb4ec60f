//! Laws of stores. Each function does nothing: its contract is the law, for all lists of writes.

ghost use Rattle.zs_store.specs.Laws.{BestIsGreatest, SameWritesSameStore, StoresHoldBest, StoresJoin};

/// What a list of writes leaves at each key is the greatest entry that it has for the key.
pub fn stores_hold_best()
    ensures { StoresHoldBest }
{}

/// The greatest entry of a key is one that was written there, and none that was written there is above it.
pub fn best_is_greatest()
    ensures { BestIsGreatest }
{}

/// Two lists with the same writes leave the same store, in whatever order they have them and however often.
pub fn same_writes_same_store()
    ensures { SameWritesSameStore }
{}

/// Merging one store into another is commutative, associative and idempotent.
pub fn stores_join()
    ensures { StoresJoin }
{}
