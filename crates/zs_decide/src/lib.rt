//! What a session makes of an event, without what it means to listeners: a function an event's kind, over the session's tables.
#![tactic(auto)]

pub use decide::decide_alone;

mod decide;
