//! What a session makes of an event that declares, publishes, listens or ends what was declared: a function an event's
//! kind, over the session's tables.
#![tactic(auto)]

mod backgrounds;
mod declared_keys;
mod groups;
mod keys;
mod matching;
mod publications;
mod publishers;
mod queriers;
mod queryables;
mod subscribers;
mod wires;

pub use backgrounds::{decide_background, names_lsub};
pub use declared_keys::{decide_key, decide_undeclare_key};
pub use keys::{KeyName, resolve, resolve_wire};
pub use matching::{
    decide_ended_queryable, decide_ended_sub, decide_listen, decide_remote_queryable,
    decide_remote_subscriber, decide_status, decide_undeclare_listener,
};
pub use publications::{decide_incoming, decide_publish, declaration_of};
pub use publishers::{decide_pub, decide_published, decide_undeclare_pub};
pub use queriers::{decide_querier, decide_undeclare_querier};
pub use queryables::{decide_queryable, decide_undeclare_queryable};
pub use subscribers::{decide_close, decide_sub, decide_undeclare_sub};
pub use wires::{declared_by, wire_form};
