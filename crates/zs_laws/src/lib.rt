//! Laws of the session's core, over its definitions alone: each is the contract of a function that does nothing.
#![tactic(auto)]

pub use ends::{
    ended_gets_stay_ended, ends_of_gets, ends_of_tokens_gets, gets_are_handed,
    others_are_handed_nothing,
};
pub use histories::{
    finals_are_due, held_texts_keep_numbers, key_numbers_are_new, listeners_hear_changes,
    listeners_know, lists_are_tests, one_message_at_most, others_hear_nothing, requests_end_once,
    subscribers_are_covered, taken_cancellation_tokens_end_nothing, wire_forms_are_read,
};
pub use messages::{
    messages_have_origins, receivers_read_keys, sent_keys_are_spelled, spelled_forms_are_read,
    spelled_subscribers_are_covered, spelled_texts_are_utf8,
};
pub use numbers::{
    cancellation_tokens_are_fresh, earlier_effects_name_no_new_entity, effects_name_declared,
    entity_numbers_are_fresh, query_numbers_are_fresh, query_values_are_fresh,
};
pub use order::effects_are_in_order;
pub use plain::{
    listeners_are_unended, marks_are_told, matches_ascend, tokens_are_unended,
    told_are_last_declared,
};

mod ends;
mod histories;
mod messages;
mod numbers;
mod order;
mod plain;
