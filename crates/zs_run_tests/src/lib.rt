//! Tests of whole runs: scripts that are recorded, and recordings that are replayed, whole, cut off, changed, out of form, and
//! with faults in mid-stream; and each mode of the program, by its words. They stand apart, so that no crate is proved twice for
//! its tests.
#![tactic(auto)]

#[cfg(test)]
mod faults;
#[cfg(test)]
mod modes;
#[cfg(test)]
mod runs;
#[cfg(test)]
mod spelling;
