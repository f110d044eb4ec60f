//! Laws over the definitions: each is the contract of a function that does nothing.

ghost use Rattle.zs_subscriptions.specs.Laws.{NextIsLeast, EachIsNext, WalkVisitsAll, MatchesAscend};

/// The next recipient behind the last one is a subscriber that receives the publication, and no subscriber that
/// receives it stands between the two. Where there is none, no subscriber behind the last one receives it.
pub fn next_is_least()
    ensures { NextIsLeast }
{}

/// What a walk has left behind a recipient is the next one, and what it has left behind that one.
pub fn each_is_next()
    ensures { EachIsNext }
{}

/// A walk from each recipient to the next visits all that receive the publication, in the order of the rows, and no
/// others.
pub fn walk_visits_all()
    ensures { WalkVisitsAll }
{}

/// The list of a number ascends, and so no subscriber is there twice.
pub fn matches_ascend()
    ensures { MatchesAscend }
{}
