//! Rows that carry a count beside their number and key.
ghost use Rattle.std.specs.Prelude.{◌≡◌, ℕ};

use crate::keyed::Keyed;

/// A row with a count that changes while the row stands.
pub trait Counted: Keyed {
    ghost counted: { ℕ → Self → Self };

    /// Sets the count, and nothing else.
    fn set_count(&mut self, count: usize)
        ensures row { self.new ≡ counted count self.old }
        ensures number { Self.number self.new ≡ Self.number self.old }
        ensures text { Self.text self.new ≡ Self.text self.old };
}
