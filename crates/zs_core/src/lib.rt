//! The session's core: one event in, one turn out. A turn is the answer and the ordered list of effects.
//! Nothing here waits, prints or calls a handler: whoever steps the state carries the effects out.
#![tactic(auto)]

pub use state::SessionState;
pub use zs_events::{
    Answer, BackgroundKind, Chan, Effect, Effects, EntityKind, Event, HandOver, KeyArg, Kind,
    PublisherSettings, QuerySettings, Refusal, Shared, Turn,
};
pub use zs_model::{KeyList, Prefix, PubRow, QuerierRow, Settings};
pub use zs_standing::{
    answers_are_numbered, askings_are_told, askings_go_on, cancellations_are_told, closed_is_told,
    counters_are_told, first_cause, gets_are_told, groups_are_live, holders_are_counted,
    keys_are_held, keys_are_told, listeners_are_live, lsubs_are_live, moments_are_told,
    numbers_are_drawn, publishers_are_live, queriers_are_live, queryables_are_live,
    refusals_have_causes, subscribers_ascend, table_is_live, texts_are_named, tokens_are_live,
    tokens_are_told, told_are_last, values_are_told,
};
pub use zs_tables::{KeyRef, QueryableRow, SubRow};
pub use zs_world::{Change, Decision, KeyHolders};

mod readings;
mod state;
