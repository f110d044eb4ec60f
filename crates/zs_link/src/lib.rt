//! Two sessions that are linked: what one sends waits until it is delivered to the other, in order and each message once.
#![tactic(auto)]

pub use driving::drive_link;
pub use laws::lines_are_handed;
pub use mode::LinkMachine;
pub use world::{Delivered, LinkWorld};
pub use zs_delivery::LinkSide;

mod driving;
mod laws;
mod mode;
mod printing;
mod session;
mod world;
