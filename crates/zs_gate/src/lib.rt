//! The gate that callbacks run inside of, a lock that knows its value, and a group of notifiers over both.
//!
//! Whoever ends a subscriber has to know that its callback no longer runs. So a callback runs inside of a gate: its
//! door gives passes out, a pass enters and leaves, and the keeper drains the gate. What threads share of a gate is one
//! word: twice the number of passes that are inside or about to step back, plus a mark, which the keeper sets for ever.
//! A pass adds 2 and is inside where it found the word even; else it steps back. Once the keeper finds the word 1,
//! no one is inside, nor ever will be.
//!
//! `specs/Rule.antt` has the rule that each step of each thread keeps. Two functions that no one can call say what
//! follows for callers: `Drained::excludes` and `Keeper::excludes`.
#![tactic(auto)]

mod events;
mod gate;
mod group;
mod keeper;
mod lock;
mod pass;
mod post;
mod sync_group;
mod view;
mod watch;

pub use events::Events;
pub use gate::{Door, Gate, NoPass};
pub use keeper::{Drained, Draining, Keeper};
pub use lock::{Fact, KeyedLock, Taken};
pub use pass::{Inside, Pass};
pub use sync_group::{Notifier, SyncGroup, Waited};
