//! Laws over the definitions: each is the contract of a function that does nothing.

ghost use Rattle.zs_query.specs.Laws.{KeptIsLastPassing, KeptIsFreeOfOrder, GetsStandForReplies, OpensLast, HandsLast};
ghost use Rattle.zs_query.specs.Asked.{OpenGetsAreTold, EndedGetsStay};

/// Of the replies to a get, the last that passes is kept for each key, in the order of the keys' first replies.
pub fn kept_is_last_passing()
    ensures { KeptIsLastPassing }
{}

/// Where the replies on each key have timestamps of their own, the order in which they come makes no difference to
/// which are kept.
pub fn kept_is_free_of_order()
    ensures { KeptIsFreeOfOrder }
{}

/// What an open get keeps is what the replies that it has had make it keep, and by it each further reply comes to what
/// all those before it say.
pub fn gets_stand_for_replies()
    ensures { GetsStandForReplies }
{}

/// A get that is opened with a number above all others stands last.
pub fn opens_last()
    ensures { OpensLast }
{}

/// Query values that are handed out with numbers above all others stand last.
pub fn hands_last()
    ensures { HandsLast }
{}

/// Which gets are open, which finals they wait for and what they keep is what each has heard since it was asked.
pub fn open_gets_are_told()
    ensures { OpenGetsAreTold }
{}

/// A get that has ended is never open again.
pub fn ended_gets_stay()
    ensures { EndedGetsStay }
{}
