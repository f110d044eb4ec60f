//! A walk over the pairs of a parameter text.

ghost use Rattle.std.specs.Prelude.{◌≡◌, ◌<◌, ◌==◌, [], ◌∷◌, MatchOption};
ghost use Rattle.std.specs.Iterator.{YieldsFirstBy, item_count};
ghost use Rattle.std.specs.List.{before_first, after_first};
ghost use Rattle.zs_wire.specs.Parameters.{pairs};

use std::marker::Model;

/// What stands before and behind the first such sign of a text. Without one the text stands before it, and nothing
/// behind it.
fn cut_at(text: &str, sign: char) -> (&str, &str)
    requires { sign < 128 }
    ensures before { result.0.now ≡ before_first (λ byte. byte == sign) text.now }
    ensures behind { result.1.now ≡ after_first (λ byte. byte == sign) text.now }
{
    match text.split_once(sign) {
        Some(parts) => parts,
        None => (text, ""),
    }
}

/// The first pair of a text, and the text behind it.
#[tactic(auto, using(crate::proofs::Cutting::cutting))]
fn first_pair(text: &str) -> Option<((&str, &str), &str)>
    ensures { MatchOption result (pairs text.now ≡ [])
        (λ found. pairs text.now ≡ (found.0.0.now, found.0.1.now) ∷ pairs found.1.now) }
{
    let mut rest = text;
    'pieces: while !rest.is_empty() {
        let (piece, behind) = cut_at(rest, ';');
        if !piece.is_empty() {
            return Some((cut_at(piece, '='), behind));
        }
        rest = behind;
    }
    None
}

/// Gives each pair of name and value once, in order. Contracts see the pairs that are left.
#[derive(Drop)]
pub struct ParameterPairs<'a> {
    rest: &'a str,
}

impl<'a> Model for ParameterPairs<'a> {
    ghost use Rattle.std.specs.Prelude.{ℕ, List};
    ghost use Rattle.zs_wire.specs.Parameters.{pairs};

    ghost Value = { List (List ℕ × List ℕ) };

    ghost view = { λ p. pairs p.rest.now };
}

impl<'a> ParameterPairs<'a> {
    /// The pairs of a text.
    pub(crate) fn of(text: &'a str) -> ParameterPairs<'a>
        ensures { result ≡ pairs text.now }
    {
        ParameterPairs { rest: text }
    }
}

impl<'a> Iterator for ParameterPairs<'a> {
    type Item = (&'a str, &'a str);

    ghost next_gives = { YieldsFirstBy (λ pair. (pair.0.now, pair.1.now)) (λ left. left) };

    ghost remaining = { item_count (λ left. left) };

    /// The next pair. Empty pieces between `;` are passed over, and a name without `=` has the empty value.
    fn next(&mut self) -> Option<(&'a str, &'a str)> {
        let (pair, rest) = first_pair(self.rest)?;
        self.rest = rest;
        Some(pair)
    }
}
