//! Lists with wild elements, and whether two of them match.
//!
//! The search takes no memory and goes back over no choice that it has left, so its time is at most the product of the
//! two lengths. It rests on two facts. Against a list without wild elements, the first place where a piece between two
//! wild elements fits is as good as any later one. And once a wild element stands before one list and another one in
//! the other list, only the pieces behind the last wild element of each matter: one must stand at the end of the other.

ghost use Rattle.std.specs.Prelude.{◌≡◌, Bool, true, false, List, [], ◌∷◌, MatchOption};
ghost use Rattle.std.specs.List.{list_any};
ghost use Rattle.zs_keys.specs.Walk.{meets_free, meets_behind, last_piece, Tells};

/// A walk over a list some of whose elements are wild: each stands for any number of elements of the other list.
pub(crate) trait Pattern: Copy {
    type Element: Copy;

    ghost Seen: { Type 0 };

    ghost seen: { Self.Element → Seen };

    ghost elements: { Self → List Seen };

    ghost wild: { Seen → Bool };

    ghost wild_right: { Seen → Bool };

    ghost same: { Seen → Seen → Bool };

    /// The next element, and the walk behind it.
    fn split_first(self) -> Option<(Self::Element, Self)>
        ensures { MatchOption result (elements self ≡ []) (λ p. elements self ≡ seen p.0 ∷ elements p.1) };

    /// Whether the element is wild in the left list.
    fn is_wild(element: Self::Element) -> bool
        ensures { result ≡ wild (seen element) };

    /// Whether the element is wild in the right list.
    fn is_wild_right(element: Self::Element) -> bool
        ensures { result ≡ wild_right (seen element) };

    /// Whether two elements, neither of them wild, may stand against one another.
    fn is_same(left: Self::Element, right: Self::Element) -> bool
        ensures { result ≡ same (seen left) (seen right) };
}

/// Where a walk along two lists in step ends.
#[derive(Clone, Copy)]
pub(crate) enum Walk<P> {
    /// Both lists end.
    Ended,
    /// Two elements differ, or one list ends and the other goes on.
    Differ,
    /// The left list has a wild element; the rest behind it, and the rest of the right list.
    LeftWild(P, P),
    /// The right list has a wild element; the rest of the left list, and the rest behind it.
    RightWild(P, P),
}

/// Walks along two lists in step up to the first wild element.
#[tactic(auto, using(crate::proofs::WalkLemmas::walk_steps))]
fn walk_both<P: Pattern>(left: P, right: P) -> Walk<P>
    ensures { Tells P.elements P.wild P.wild_right P.same (P.elements left) (P.elements right) result }
{
    let mut left = left;
    let mut right = right;
    while let Some((first, left_rest)) = left.split_first() {
        if P::is_wild(first) {
            return Walk::LeftWild(left_rest, right);
        }
        let Some((other, right_rest)) = right.split_first() else {
            return Walk::Differ;
        };
        if P::is_wild_right(other) {
            return Walk::RightWild(left, right_rest);
        }
        if !P::is_same(first, other) {
            return Walk::Differ;
        }
        left = left_rest;
        right = right_rest;
    }
    let Some((other, right_rest)) = right.split_first() else {
        return Walk::Ended;
    };
    if P::is_wild_right(other) {
        return Walk::RightWild(left, right_rest);
    }
    Walk::Differ
}

/// Whether the left list, with a wild element before it, matches the right one, which has none.
#[tactic(auto, using(crate::proofs::WalkLemmas::search_steps))]
fn stands_behind<P: Pattern>(left: P, right: P) -> bool
    requires { list_any P.wild_right (P.elements right) ≡ false }
    ensures { result ≡ meets_behind P.wild P.wild_right P.same (P.elements left) (P.elements right) }
{
    let mut left = left;
    let mut right = right;
    loop {
        match walk_both(left, right) {
            Walk::Ended => return true,
            Walk::Differ => {
                let Some((_, rest)) = right.split_first() else {
                    return false;
                };
                right = rest;
            }
            Walk::LeftWild(left_rest, right_rest) => {
                left = left_rest;
                right = right_rest;
            }
            Walk::RightWild(_, _) => unreachable!(),
        }
    }
}

/// Whether the list has an element that is wild in the right list.
fn has_wild<P: Pattern>(list: P) -> bool
    ensures { result ≡ list_any P.wild_right (P.elements list) }
{
    let mut rest = list;
    while let Some((element, others)) = rest.split_first() {
        if P::is_wild_right(element) {
            return true;
        }
        rest = others;
    }
    false
}

/// What stands behind the last wild element, or the whole list where there is none.
#[tactic(auto, using(crate::proofs::PieceLemmas::piece_steps))]
fn last_piece<P: Pattern>(list: P) -> P
    ensures { P.elements result ≡ last_piece P.wild (P.elements list) }
{
    let mut piece = list;
    let mut rest = list;
    while let Some((element, others)) = rest.split_first() {
        if P::is_wild(element) {
            piece = others;
        }
        rest = others;
    }
    piece
}

/// Whether the left list, with a wild element before it, matches the right one, where both read the same on either side.
fn stands_anywhere<P: Pattern>(left: P, right: P) -> bool
    requires one_wild { P.wild_right ≡ P.wild }
    requires even { (x y : P.Seen) → P.same x y ≡ P.same y x }
    ensures { result ≡ meets_behind P.wild P.wild_right P.same (P.elements left) (P.elements right) }
{
    if !has_wild(right) {
        return stands_behind(left, right);
    }
    let left_end = last_piece(left);
    let right_end = last_piece(right);
    stands_behind(left_end, right_end) || stands_behind(right_end, left_end)
}

/// Whether two lists match that read the same on either side.
pub(crate) fn matches_list<P: Pattern>(left: P, right: P) -> bool
    requires one_wild { P.wild_right ≡ P.wild }
    requires even { (x y : P.Seen) → P.same x y ≡ P.same y x }
    ensures { result ≡ meets_free P.wild P.wild_right P.same (P.elements left) (P.elements right) }
{
    match walk_both(left, right) {
        Walk::Ended => true,
        Walk::Differ => false,
        Walk::LeftWild(left_rest, right_rest) => stands_anywhere(left_rest, right_rest),
        Walk::RightWild(left_rest, right_rest) => stands_anywhere(right_rest, left_rest),
    }
}

/// Whether the left list matches the right one, which has no wild element.
pub(crate) fn fits_list<P: Pattern>(left: P, right: P) -> bool
    requires { list_any P.wild_right (P.elements right) ≡ false }
    ensures { result ≡ meets_free P.wild P.wild_right P.same (P.elements left) (P.elements right) }
{
    match walk_both(left, right) {
        Walk::Ended => true,
        Walk::Differ => false,
        Walk::LeftWild(left_rest, right_rest) => stands_behind(left_rest, right_rest),
        Walk::RightWild(_, _) => unreachable!(),
    }
}
