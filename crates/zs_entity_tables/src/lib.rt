//! The tables of what a session declared, apart: entities by their numbers and in the groups that share a declaration,
//! sets of their numbers, how many hold a declared key, and the listeners with whom the network told.
#![tactic(auto)]

pub use candidates::{
    own_queryable_of, own_sub_of, recounts_of, remote_queryable_of, remote_subscriber_of,
};
pub use declared_key::KeyHolders;
pub use entity::Entity;
pub use entity_table::EntityTable;
pub use groups::{add_to_group, join_group, leave_found};
pub use id_set::IdSet;
pub use key_holders::KeyHolderCounts;
pub use matching::Matching;
pub use met::Met;

mod candidates;
mod declared_key;
mod entity;
mod entity_table;
mod groups;
mod id_set;
mod key_holders;
mod matching;
mod met;
