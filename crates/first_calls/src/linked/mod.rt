//! Two sessions and the link between them.

pub(crate) use opening::start;

mod asking;
mod link;
mod living;
mod opening;
mod publishing;
mod showing;
