//! What a token keeps of each handler.

/// A handler: a job, and the number by which it can be removed.
#[derive(Drop)]
pub struct Entry<J> {
    pub number: u32,
    pub job: J,
}
