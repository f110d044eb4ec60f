//! The change of the count of a listener.
ghost use Rattle.std.specs.Prelude.{◌≡◌};
ghost use Rattle.zs_tables.specs.Matching.{is_heard};

/// How many match a listener, before a change and behind it.
#[derive(Clone, Copy, Debug, PartialEq, Eq)]
pub struct Recount {
    /// The listener's number.
    pub id: u32,
    pub was: usize,
    pub is: usize,
}

impl Recount {
    /// Whether the listener hears of it: where it was none that matched or is none now, and not both.
    pub fn is_heard(&self) -> bool
        ensures { result ≡ is_heard self.now }
    {
        (self.was > 0) != (self.is > 0)
    }
}
