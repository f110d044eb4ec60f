//! Tests of the tables, of queries, of trees of keys, of stores and of views of a group by their public calls. They stand
//! apart, so that no crate is proved twice for its tests.
#![tactic(auto)]

#[cfg(test)]
mod calls;
#[cfg(test)]
mod gets;
#[cfg(test)]
mod liveliness;
#[cfg(test)]
mod matching;
#[cfg(test)]
mod members;
#[cfg(test)]
mod requests;
#[cfg(test)]
mod store;
#[cfg(test)]
mod tables;
#[cfg(test)]
mod tree;
