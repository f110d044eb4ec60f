//! Calls of handlers that are to be made.
use crate::key::{Key, Name};
use crate::pass::Lent;
use crate::passes::Passes;
use std::sync::Arc;

/// An item for the handler of a key.
#[derive(Drop)]
pub struct Wanted<T> {
    pub key: Key,
    pub item: T,
}

// A handler and the name of its post.
#[derive(Drop)]
pub(crate) struct Target<H> {
    pub handler: Arc<H>,
    pub name: Name,
}

// The passes of the gates above a handler's own.
#[derive(Drop)]
pub(crate) struct Above {
    pub session: Option<Lent>,
    pub parent: Option<Lent>,
    pub token: Option<Lent>,
}

/// A handler with what it takes for a call of it.
#[derive(Drop)]
pub(crate) struct Loan<H> {
    pub handler: Arc<H>,
    pub passes: Passes,
}

/// A call that is to be made: the item, the handler, and the passes of the gates that it is made inside of.
#[derive(Drop)]
pub struct Call<H, T> {
    pub item: T,
    pub handler: Arc<H>,
    pub passes: Passes,
}
