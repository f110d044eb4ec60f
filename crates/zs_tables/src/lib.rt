//! The live queryables and listeners of a session, and what the other side declared: who answers for a key, and whom
//! listeners listen for. It passes on the subscribers with the declared numbers, the groups of entities that share a
//! declaration, and the tables of liveliness.
#![tactic(auto)]

pub use candidate::{Candidate, Offer};
pub use listener::{Listener, ListenerRow, Sought};
pub use listener_table::ListenerTable;
pub use matching_laws::{
    changes_are_heard, queryables_move, recounts_are_current, recounts_keep_listeners,
    remote_queryables_move, remote_subscribers_move, status_is_count, subs_move,
};
pub use present::Present;
pub use queryable::QueryableRow;
pub use queryable_table::QueryableTable;
pub use recount::Recount;
pub use remote_row::{RemoteQueryable, RemoteSubscriber};
pub use remote_table::RemoteTable;
pub use zs_grouped::{GroupKind, Groups};
pub use zs_liveliness::{
    LivelinessGet, LivelinessGets, LivelinessSub, LivelinessSubs, RemoteToken, RemoteTokens,
};
pub use zs_subscriptions::{
    KeyRef, SubRow, Tables, each_is_next, matches_ascend, next_is_least, walk_visits_all,
};

mod candidate;
mod listener;
mod listener_table;
mod matching_laws;
mod present;
mod queryable;
mod queryable_table;
mod recount;
mod remote_row;
mod remote_table;
