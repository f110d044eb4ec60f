//! The tables of a session, what an event changes of them, and how a change is made. Contracts see them as a `World` of plain lists
//! and counters. `specs/` says what each event makes of a world: its decision, that is its turn and its change. The tables of which
//! these are made stand in `zs_entity_tables`, which is passed on.
#![tactic(auto)]

pub use change::{
    CancellationChange, Change, Decision, EntityChange, EntityRow, GetChange, KeyChange,
    LivelinessChange, MatchingChange, NetworkChange, ValueChange,
};
pub use liveliness::Liveliness;
pub use session_tables::SessionTables;
pub use zs_entity_tables::{
    Entity, EntityTable, IdSet, KeyHolderCounts, KeyHolders, Matching, Met, own_queryable_of,
    own_sub_of, remote_queryable_of, remote_subscriber_of,
};

mod change;
mod liveliness;
mod session_tables;
