//! Clocks for timestamps.

ghost use Rattle.std.specs.Prelude.{ℕ, ⊤};

/// Tells moments.
pub trait Clock {
    // What a clock tells, and what it becomes.
    ghost reads: { Self → ℕ → Self → Type 0 } = { λ _ _ _. ⊤ };

    /// The moment, in the unit of `Timestamp::time`.
    fn now(&mut self) -> u64
        ensures { reads self.old result self.new };
}
