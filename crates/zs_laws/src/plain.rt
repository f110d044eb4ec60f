//! Plain words, where tables or folds speak.

ghost use Rattle.zs_laws.specs.Plain.{ListenersAreUnended, ToldAreLastDeclared, TokensAreUnended, MarksAreTold, MatchesAscend};

/// The live listeners are those that an accepted event declared, and that no later one ended, nor their publisher or querier.
pub fn listeners_are_unended()
    ensures { ListenersAreUnended }
{}

/// The subscribers and queryables of the network are the last declarations of their numbers, without a later end.
pub fn told_are_last_declared()
    ensures { ToldAreLastDeclared }
{}

/// The liveliness tokens of the network that are known are those that an accepted event told, to no get alone, and that no later one
/// ended. Each stands for the text that the first such event told.
pub fn tokens_are_unended()
    ensures { TokensAreUnended }
{}

/// After any history those entities are marked as left to themselves which an accepted event left so.
pub fn marks_are_told()
    ensures { MarksAreTold }
{}

/// After any history the live subscribers that a text matches stand in ascending number, each once.
pub fn matches_ascend()
    ensures { MatchesAscend }
{}
