//! Tests of the session that callers share: what they are told, the keys that they declare, callers on threads, and the calls that
//! are made while a handler's call is held: which wait for it, and which don't. They stand apart, so that no crate is proved twice
//! for its tests.
#![tactic(auto)]

#[cfg(test)]
mod beside;
#[cfg(test)]
mod callers;
#[cfg(test)]
mod events;
#[cfg(test)]
mod holding;
#[cfg(test)]
mod keys;
#[cfg(test)]
mod running;
#[cfg(test)]
mod stepping;
#[cfg(test)]
mod threads;
#[cfg(test)]
mod trouble;
#[cfg(test)]
mod waiting;
