//! Laws of the definitions. Each function does nothing: its contract is the law, for all texts.

ghost use Rattle.std.specs.Prelude.{◌≡◌, IsTrue};
ghost use Rattle.zs_keys.specs.Laws.{MeetBothWays, MeetsWhatItIncludes, IsOwnForm, IsFormOnce, HasFormWhere, JoinsToCanonical, IsByCharacters, IsCanonicalByCharacters};

use crate::key_expr::KeyExpr;
use std::hash::Hash;

/// Whether two key expressions have a key in common does not depend on their order.
pub fn intersects_is_symmetric(left: &str, right: &str)
    ensures { MeetBothWays left.now right.now }
{}

/// A canonical text is its own canonical form.
pub fn canonical_form_is_kept(text: &str)
    ensures { IsOwnForm text.now }
{}

/// Two canonical texts joined by a `/` have a canonical form.
pub fn joins_are_canonical(text: &str, suffix: &str)
    ensures { JoinsToCanonical text.now suffix.now }
{}

/// A key expression that includes another one has a key in common with it.
pub fn includes_implies_intersects(left: &str, right: &str)
    ensures { MeetsWhatItIncludes left.now right.now }
{}

/// The canonical form of a text is its own canonical form.
pub fn canonize_is_idempotent(text: &str)
    ensures { IsFormOnce text.now }
{}

/// The canonical form of a text is canonical exactly where the text has no fault but runs of stars: where each chunk, in
/// its own canonical form, may stand in a canonical text.
pub fn canonical_form_is_canonical(text: &str)
    ensures { HasFormWhere text.now }
{}

/// Key expressions that compare as equal feed a hasher the same, whatever their declarations.
pub fn equal_keys_hash_alike(left: &KeyExpr<'_>, right: &KeyExpr<'_>)
    ensures { IsTrue (⟦<KeyExpr<'static> as PartialEq>⟧.eq left.now right.now)
        → ⟦<KeyExpr<'static> as Hash>⟧.hash_input left.now ≡ ⟦<KeyExpr<'static> as Hash>⟧.hash_input right.now }
{}

/// The definitions speak of the bytes of two texts, and have the same answers over their characters.
pub fn matching_is_by_characters(left: &str, right: &str)
    ensures { IsByCharacters left.now right.now }
{}

/// A text is canonical by its bytes exactly where it is by its characters.
pub fn canonical_texts_are_by_characters(text: &str)
    ensures { IsCanonicalByCharacters text.now }
{}
