//! The groups of entities that share one declaration, each found by the text that its members share.
#![tactic(auto)]

pub use group_kind::GroupKind;
pub use groups::Groups;

mod group_kind;
mod group_row;
mod grouping;
mod groups;
