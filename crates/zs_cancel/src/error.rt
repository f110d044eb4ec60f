//! The answers of a token that a caller has to expect: why a job is not added, and what a failed cancellation says.

/// Why a job was not added.
#[derive(Clone, Copy, Debug, PartialEq, Eq)]
pub enum AddError {
    /// The token was cancelled, so its handlers are taken.
    TokenUsed,
    /// All 4294967295 numbers of handlers are drawn.
    IdsExhausted,
    /// There was no memory.
    NoMemory,
}

/// A job that was not added, and why.
#[derive(Drop)]
pub struct NotAdded<J> {
    pub why: AddError,
    pub job: J,
}

/// A cancellation failed, since the handler of this number did.
#[derive(Clone, Copy, Debug, PartialEq, Eq)]
pub struct CancelFailed {
    pub number: u32,
}
