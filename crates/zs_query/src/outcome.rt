//! What gets make of replies, errors and finals.
ghost use Rattle.std.specs.Prelude.{◌≡◌};
ghost use Rattle.zs_query.specs.Gets.{named};

use crate::replies::Replies;
use zs_sample::Reply;

/// What a reply, an error or a final comes to.
#[derive(Debug, Drop)]
pub enum Outcome {
    /// No get of that number is open.
    Unknown,
    /// The reply's key has no key in common with that of its get.
    Unmatched,
    /// The reply is kept for the end of its get.
    Kept,
    /// A newer reply on its key came before.
    Dropped,
    /// The reply is to be handed out.
    Handed(Reply),
    /// The get still waits for the final of the other side.
    Counted,
    /// The get doesn't wait for the final of that side, or no longer.
    Repeated,
    /// The get has ended, and these replies are to be handed out.
    Ended(Replies),
}

/// What a reply would come to: the name of its outcome.
#[derive(Clone, Copy, Debug, PartialEq, Eq, Hash)]
pub enum Peek {
    Unknown,
    Unmatched,
    Kept,
    Dropped,
    Handed,
}

impl Peek {
    /// The outcome of that name.
    pub(crate) fn with(self, reply: Reply) -> Outcome
        ensures { result ≡ named self reply }
    {
        match self {
            Peek::Unknown => Outcome::Unknown,
            Peek::Unmatched => Outcome::Unmatched,
            Peek::Kept => Outcome::Kept,
            Peek::Dropped => Outcome::Dropped,
            Peek::Handed => Outcome::Handed(reply),
        }
    }
}
