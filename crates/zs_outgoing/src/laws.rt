//! Laws: each is the contract of a function that does nothing.

ghost use Rattle.zs_outgoing.specs.Published.{PublicationsAreGivenOut};
ghost use Rattle.zs_outgoing.specs.Tokens.{TokensAreSent};

/// An accepted publication of an open session is handed to exactly those of the session's own live subscribers that its
/// destination reaches and its key meets, each once, in the order of their numbers; and it is sent once, as a push of which
/// whoever reads its key makes the same sample, exactly where its destination has the network in it. Nothing else is sent.
pub fn publications_are_given_out()
    ensures { PublicationsAreGivenOut }
{}

/// An accepted liveliness token of an open session is sent once, with the number that it is answered and its whole key; its end
/// is sent once, with the same number. Neither hands anything over in the session itself.
pub fn tokens_are_sent()
    ensures { TokensAreSent }
{}
