//! Laws over what an event brings about: each is the contract of a function that does nothing.

ghost use Rattle.zs_effects.specs.Answered.{TokensGetsAreHanded, OthersAreAnsweredNothing};
ghost use Rattle.zs_effects.specs.Ascending.{EffectsAscend};

/// In each place of an event's effects the numbers of those that they are for ascend: a subscriber is handed one sample, a
/// queryable one query, what ends ends once, and a listener hears one thing. A get may be handed several replies, one after
/// the other, and so may a new subscriber to liveliness be handed several tokens.
pub fn effects_ascend()
    ensures { EffectsAscend }
{}

/// An event hands an open get of tokens just this: the token that the network tells as an answer to it, and at its deadline the
/// error that says so.
pub fn tokens_gets_are_handed()
    ensures { TokensGetsAreHanded }
{}

/// A get of tokens that is not open is handed nothing.
pub fn others_are_answered_nothing()
    ensures { OthersAreAnsweredNothing }
{}
