//! Display of selectors.

ghost use Rattle.std.specs.Prelude.{Some};
ghost use Rattle.zs_sample.specs.Selector.{selector_text};

use crate::selector::Selector;
use std::fmt;

impl<'a> fmt::Display for Selector<'a> {
    ghost output = { λ s. Some (selector_text s) };

    /// Writes the key, and where there are parameters a `?` and them: the text that a selector is made of.
    fn fmt<W: fmt::Write>(&self, f: &mut fmt::Formatter<W>) -> fmt::Result {
        if self.parameters().is_empty() {
            return write!(f, "{}", self.key_expr());
        }
        write!(f, "{}?{}", self.key_expr(), self.parameters())
    }
}

impl<'a> fmt::Debug for Selector<'a> {
    ghost use Rattle.zs_sample.specs.Selector.{debug_text};

    ghost debug_output = { λ s. Some (debug_text s) };

    /// Shows the text in quotes behind `sel`, as Zenoh does. It escapes nothing.
    fn fmt<W: fmt::Write>(&self, f: &mut fmt::Formatter<W>) -> fmt::Result {
        write!(f, "sel\"{self}\"")
    }
}
