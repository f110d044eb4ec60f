//! Comparisons, hashes and Display of key expressions, which see the text alone.

ghost use Rattle.std.specs.Prelude.{◌≡◌, Some, bytes_eq, refl};
ghost use Rattle.std.specs.Ordering.{nat_cmp};
ghost use Rattle.std.specs.Hash as fed;
ghost use Rattle.std.specs.Cmp;
ghost use Rattle.std.specs.Cmp.{on_equiv, on_total, on_per, on_po};
ghost use Rattle.std.specs.Cmp.Rules.{hashing};
ghost use Rattle.std.specs.Cmp.Lexicographic.{slice_cmp, nat_list_eq_equiv, nat_list_cmp_total, texts_ties, texts_po};
ghost use Rattle.std.proofs.Common.{rules};
ghost use Rattle.zs_keys.specs.Key.{Key};

use crate::key_expr::KeyExpr;
use std::cmp::Ordering;
use std::fmt;
use std::hash::{Hash, Hasher};

impl<'a> PartialEq for KeyExpr<'a> {
    ghost eq = { λ k l. bytes_eq k.text l.text };

    ghost laws = { on_per (λ (k : Key). k.text) (Cmp.partial_equiv_from_equiv nat_list_eq_equiv) };

    /// Whether the texts are the same. How the keys were declared makes no difference.
    fn eq(&self, other: &Self) -> bool {
        self.as_str() == other.as_str()
    }
}

impl<'a> Eq for KeyExpr<'a> {
    ghost laws = { on_equiv (λ (k : Key). k.text) nat_list_eq_equiv };
}

impl<'a> PartialOrd for KeyExpr<'a> {
    ghost partial_cmp = { λ k l. Some (slice_cmp nat_cmp k.text l.text) };

    ghost laws = { on_po (λ (k : Key). k.text) texts_po };

    /// The order of the texts, which is total, so there is always an answer.
    fn partial_cmp(&self, other: &Self) -> Option<Ordering> {
        Some(self.cmp(other))
    }
}

impl<'a> Ord for KeyExpr<'a> {
    ghost cmp = { λ k l. slice_cmp nat_cmp k.text l.text };

    ghost total = { on_total (λ (k : Key). k.text) nat_list_cmp_total };

    ghost matches_partial_cmp = { λ k l. refl };

    ghost matches_eq = { λ k l. texts_ties k.text l.text };

    /// The order of the texts, byte by byte. A text comes before those that go on behind it.
    fn cmp(&self, other: &Self) -> Ordering {
        self.as_str().cmp(other.as_str())
    }
}

impl<'a> Hash for KeyExpr<'a> {
    ghost hash_input = { λ k. fed.str k.text };

    ghost respects_eq = { Prim.search (hashing, rules) };

    /// Feeds the text alone, so that equal key expressions hash alike.
    fn hash<H: Hasher>(&self, state: &mut H) {
        self.as_str().hash(state);
    }
}

impl<'a> fmt::Display for KeyExpr<'a> {
    ghost output = { λ k. Some k.text };

    /// Writes the text, with the width and precision that the formatter asks for.
    fn fmt<W: fmt::Write>(&self, f: &mut fmt::Formatter<W>) -> fmt::Result {
        f.pad(self.as_str())
    }
}

impl<'a> fmt::Debug for KeyExpr<'a> {
    /// Shows the text in quotes, with its escapes, as Debug of a `str` does.
    fn fmt<W: fmt::Write>(&self, f: &mut fmt::Formatter<W>) -> fmt::Result {
        fmt::Debug::fmt(&self.as_str(), f)
    }
}
