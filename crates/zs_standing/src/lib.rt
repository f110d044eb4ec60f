//! The tables of a session stand for the history of its events: what they hold is what the plain definitions say of it. Each law is the
//! contract of a function that does nothing.
#![tactic(auto)]

pub use laws::{
    answers_are_numbered, askings_are_told, askings_go_on, cancellations_are_told, closed_is_told,
    counters_are_told, first_cause, gets_are_told, groups_are_live, holders_are_counted,
    keys_are_held, keys_are_told, listeners_are_live, lsubs_are_live, moments_are_told,
    numbers_are_drawn, publishers_are_live, queriers_are_live, queryables_are_live,
    refusals_have_causes, subscribers_ascend, table_is_live, texts_are_named, tokens_are_live,
    tokens_are_told, told_are_last, values_are_told,
};

mod laws;
