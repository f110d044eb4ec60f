//! Comparisons, hashes and Display of encodings, which see the text alone.

ghost use Rattle.std.specs.Prelude.{Some, bytes_eq, encode_utf8_all};
ghost use Rattle.std.specs.Hash as fed;
ghost use Rattle.std.specs.Cmp;
ghost use Rattle.std.specs.Cmp.{on_equiv, on_per};
ghost use Rattle.std.specs.Cmp.Rules.{hashing};
ghost use Rattle.std.specs.Cmp.Lexicographic.{nat_list_eq_equiv};
ghost use Rattle.std.proofs.Common.{rules};

use crate::encoding::Encoding;
use std::fmt;
use std::hash::{Hash, Hasher};

impl PartialEq for Encoding {
    ghost eq = { λ e f. bytes_eq (encode_utf8_all e) (encode_utf8_all f) };

    ghost laws = { on_per encode_utf8_all (Cmp.partial_equiv_from_equiv nat_list_eq_equiv) };

    /// Whether the names are the same text, schema and all, whether known or the application's own.
    fn eq(&self, other: &Self) -> bool {
        self.as_str() == other.as_str()
    }
}

impl Eq for Encoding {
    ghost laws = { on_equiv encode_utf8_all nat_list_eq_equiv };
}

impl Hash for Encoding {
    ghost hash_input = { λ e. fed.str (encode_utf8_all e) };

    ghost respects_eq = { Prim.search (hashing, rules) };

    /// Feeds the name alone, so that equal encodings hash alike.
    fn hash<H: Hasher>(&self, state: &mut H) {
        self.as_str().hash(state);
    }
}

impl fmt::Display for Encoding {
    ghost output = { λ e. Some (encode_utf8_all e) };

    /// Writes the name, with the width and precision that the formatter asks for.
    fn fmt<W: fmt::Write>(&self, f: &mut fmt::Formatter<W>) -> fmt::Result {
        f.pad(self.as_str())
    }
}

impl fmt::Debug for Encoding {
    /// Shows the name in quotes, with its escapes, as Debug of a `str` does.
    fn fmt<W: fmt::Write>(&self, f: &mut fmt::Formatter<W>) -> fmt::Result {
        fmt::Debug::fmt(&self.as_str(), f)
    }
}
