//! Tests of a session's cell with handlers, and of a session's turns before they are taken, by public calls.
#![tactic(auto)]

#[cfg(test)]
mod cells;
#[cfg(test)]
mod events;
#[cfg(test)]
mod previews;
