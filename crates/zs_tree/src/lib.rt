//! A tree of key expressions, each with a number, that finds those which have a key in common with a given one without
//! testing all.
#![tactic(auto)]

mod block;
mod chunks;
mod code;
mod edits;
mod entry;
mod gap;
mod least;
mod left;
mod matching;
mod runs;
mod search;
mod tree;
mod walk;

pub use tree::KeyTree;
