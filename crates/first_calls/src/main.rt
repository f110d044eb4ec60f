//! Sessions as callers share them: first one session alone, with a subscriber that is handed a put, a get that a queryable
//! answers, a publisher that asks whether anyone listens, a querier whose listener is told whether a queryable is there, and a
//! get that is cancelled; then two linked sessions in one process, in the style of Zenoh's examples, where what is declared,
//! published and asked in one of them is heard and answered in the other.
#![tactic(auto)]

use crate::trouble::Trouble;

mod alone;
mod channel;
mod linked;
mod trouble;

/// Uses one session, and then two of which each is told what the other one sends.
fn main(rt: HostRuntime) -> Result<(), Trouble> {
    alone::start(&rt, rt.alloc())?;
    linked::start(&rt, rt.alloc())
}
