//! Tests of keys, payloads, messages and samples by their public calls. They stand apart, so that no crate is proved
//! twice for its tests.
#![tactic(auto)]

#[cfg(test)]
mod key_calls;
#[cfg(test)]
mod keys;
#[cfg(test)]
mod payloads;
#[cfg(test)]
mod sample;
#[cfg(test)]
mod wire;
