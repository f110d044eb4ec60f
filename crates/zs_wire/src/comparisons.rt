//! Comparisons, hashes and Display of parameters, which see their text.

ghost use Rattle.std.specs.Prelude.{Some, bytes_eq};
ghost use Rattle.std.specs.Hash as fed;
ghost use Rattle.std.specs.Cmp;
ghost use Rattle.std.specs.Cmp.Rules.{hashing};
ghost use Rattle.std.specs.Cmp.Lexicographic.{nat_list_eq_equiv};
ghost use Rattle.std.proofs.Common.{rules};

use crate::parameters::Parameters;
use std::fmt;
use std::hash::{Hash, Hasher};

impl<'a> PartialEq for Parameters<'a> {
    ghost eq = { bytes_eq };

    ghost laws = { Cmp.partial_equiv_from_equiv nat_list_eq_equiv };

    /// Whether the texts are the same: the same pairs in another order are other parameters.
    fn eq(&self, other: &Self) -> bool {
        self.as_str() == other.as_str()
    }
}

impl<'a> Eq for Parameters<'a> {
    ghost laws = { nat_list_eq_equiv };
}

impl<'a> Hash for Parameters<'a> {
    ghost hash_input = { λ p. fed.str p };

    ghost respects_eq = { Prim.search (hashing, rules) };

    /// Feeds the text alone, so that equal parameters hash alike.
    fn hash<H: Hasher>(&self, state: &mut H) {
        self.as_str().hash(state);
    }
}

impl<'a> fmt::Display for Parameters<'a> {
    ghost output = { λ p. Some p };

    /// Writes the text, with the width and precision that the formatter asks for.
    fn fmt<W: fmt::Write>(&self, f: &mut fmt::Formatter<W>) -> fmt::Result {
        f.pad(self.as_str())
    }
}

impl<'a> fmt::Debug for Parameters<'a> {
    /// Shows the text in quotes, with its escapes, as Debug of a `str` does.
    fn fmt<W: fmt::Write>(&self, f: &mut fmt::Formatter<W>) -> fmt::Result {
        fmt::Debug::fmt(&self.as_str(), f)
    }
}
