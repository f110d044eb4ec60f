//! The outcome of a cancellation.

/// How the run of a token's handlers ended.
#[derive(Clone, Copy, Debug, PartialEq, Eq)]
pub enum Outcome {
    /// Each handler ran, and none failed.
    Done,
    /// The handler of this number failed, and those after it weren't run.
    Failed(u32),
}
