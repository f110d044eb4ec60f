//! One session, whose own publishers, subscribers and queryables reach one another.

pub(crate) use opening::start;

mod asking;
mod opening;
mod publishing;
mod putting;
mod querying;
mod showing;
