//! The answer to whether anyone is at the other end of a publisher or a querier.
use std::marker::Model;

/// Whether anyone listens to a publisher, or answers a querier. Contracts see the answer.
#[derive(Clone, Copy, Debug, PartialEq, Eq)]
pub struct MatchingStatus {
    matching: bool,
}

impl Model for MatchingStatus {
    ghost use Rattle.std.specs.Prelude.{Bool};

    ghost Value = { Bool };

    ghost view = { λ s. s.matching };

    ghost inverse = { λ matching. record { matching = matching } };
}

ghost use Rattle.std.specs.Prelude.{◌≡◌};

impl MatchingStatus {
    /// The status with this answer.
    pub const fn of(matching: bool) -> MatchingStatus
        ensures { result ≡ matching }
    {
        MatchingStatus { matching }
    }

    /// Whether anyone is there.
    pub fn matching(&self) -> bool
        ensures { result ≡ self.now }
    {
        self.matching
    }
}
