//! A value that several hold at once, in one place in memory with a count of its holders.
ghost use Rattle.std.specs.Prelude.{◌≡◌, IfOk};

use std::alloc::{AllocError, Global};
use std::fmt;
use std::marker::Model;
use std::sync::Arc;

/// A value that is never changed and that several hold, in one place in memory: a copy takes none, and costs a count.
/// Contracts see it as the value itself.
pub struct Shared<T> {
    held: Arc<T>,
}

impl<T: Drop> Drop for Shared<T> {
    /// Gives up this holder. The value goes with the last one.
    fn drop(self) {
        let Shared { held } = self;
        drop(held);
    }
}

impl<T> Model for Shared<T> {
    ghost use Rattle.std.specs.Arc.{arc_value};

    ghost Value = { T };

    ghost view = { λ s. arc_value s.held };
}

impl<T: Drop> Shared<T> {
    /// A value, moved to a place that can be shared.
    ///
    /// # Errors
    ///
    /// Want of memory; then the value is gone.
    pub fn new(alloc: Global, value: T) -> Result<Shared<T>, AllocError>
        ensures { IfOk result (λ made. made ≡ value) }
    {
        Ok(Shared {
            held: Arc::new(alloc, value)?,
        })
    }

    /// The same value, in the same place.
    ///
    /// # Errors
    ///
    /// More copies than can be counted.
    pub fn try_clone(&self) -> Result<Shared<T>, AllocError>
        ensures { IfOk result (λ copy. copy ≡ self.now) }
    {
        Ok(Shared {
            held: self.held.clone()?,
        })
    }

    /// The value.
    pub fn get(&self) -> &T
        ensures { result.now ≡ self.now }
    {
        &self.held
    }
}

impl<T: fmt::Debug> fmt::Debug for Shared<T> {
    /// Shows the value alone: nothing tells that it is shared.
    fn fmt<W: fmt::Write>(&self, f: &mut fmt::Formatter<W>) -> fmt::Result {
        let value: &T = &self.held;
        value.fmt(f)
    }
}
