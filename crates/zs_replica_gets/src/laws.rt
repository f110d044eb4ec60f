//! The law of gets over linked sessions with a store each: the contract of a function that does nothing but call the laws that it
//! rests on.

ghost use Rattle.zs_replica_gets.specs.Newest.{NewestIsBest};
ghost use Rattle.zs_replica_gets.specs.Gets.{DefaultSessionsAnswer, GetsHandTheNewest, RequestsAreAnswered};

use zs_laws::{ends_of_gets, gets_are_handed, others_are_handed_nothing};
use zs_replicas::stores_hold_what_was_written;

/// Behind every schedule of writes, gets and deliveries, a get is handed something in the one step that delivers its final, which
/// ends it, and in no other: at each key that meets its own, where that meets the replicated keys, one reply where the asker had
/// something when it asked, or the other side when it took the request, with the latest timestamp of both; and on no other key.
pub fn gets_hand_the_newest()
    ensures { GetsHandTheNewest }
{
    stores_hold_what_was_written();
    gets_are_handed();
    others_are_handed_nothing();
    ends_of_gets();
}

/// And a request that is delivered and accepted is answered in that step: a response with each entry of the store that meets its
/// key, ascending, and then the final, are what the side that took it sends.
pub fn requests_are_answered()
    ensures { RequestsAreAnswered }
{
    stores_hold_what_was_written();
    gets_are_handed();
    others_are_handed_nothing();
    ends_of_gets();
}

/// The newest of what both sides took at a key is the greatest entry of all that they took there, where entries of one timestamp
/// are equal.
pub fn newest_is_best()
    ensures { NewestIsBest }
{}

/// Sessions of the default settings answer so where all keys below `r` are replicated: so the law above says something of them.
pub fn default_sessions_answer()
    ensures { DefaultSessionsAnswer }
{}
