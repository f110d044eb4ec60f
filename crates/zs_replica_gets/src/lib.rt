//! Gets over two linked sessions with a store each: what a get is handed, and when.
#![tactic(auto)]

pub use laws::{
    default_sessions_answer, gets_hand_the_newest, newest_is_best, requests_are_answered,
};

mod laws;
