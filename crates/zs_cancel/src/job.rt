//! What a token runs when it is cancelled.
ghost use Rattle.std.specs.Prelude.{Bool, true, false, ⊤, OnOk, OnErr};

/// A job failed.
#[derive(Clone, Copy, Debug, PartialEq, Eq)]
pub struct JobFailed;

/// What a token runs when it is cancelled, once at most.
///
/// A job must not cancel its own token, since the cancel would wait for the job.
pub trait Job: Drop {
    /// Whether a run of the job may fail, or may not. A job that leaves this out may do either.
    ghost fails: { Self → Bool → Type 0 } = { λ _ _. ⊤ };

    /// Does the job.
    fn run(self) -> Result<(), JobFailed>
        ensures done { OnOk result (fails self false) }
        ensures failed { OnErr result (fails self true) };
}
