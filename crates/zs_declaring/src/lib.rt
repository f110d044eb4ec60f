//! The events by which an application declares entities, leaves them to themselves and ends them, and how a session is stepped
//! by them. Only here is looked into what the session asks of such an event: whether it is answered a number, and whether it may
//! come with a handler.
#![tactic(auto)]

pub use events::{
    background, listener, liveliness_get, liveliness_subscriber, matching_status, publisher,
    querier, queryable, subscriber, token, undeclaration,
};
pub use stepping::{declare, declare_alone, leave, status, undeclare};

mod events;
mod stepping;
