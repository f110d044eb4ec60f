//! Laws of matching. Each function does nothing: its contract is the law, whatever there is.

ghost use Rattle.zs_tables.specs.MatchingLaws.{SubsMove, QueryablesMove, RemoteSubscribersMove, RemoteQueryablesMove, RecountsAreCurrent, RecountsKeepListeners, StatusIsCount, ChangesAreHeard};

/// A subscriber of this session that comes or goes changes the counts of those who listen for it.
pub fn subs_move()
    ensures { SubsMove }
{}

/// So does a queryable.
pub fn queryables_move()
    ensures { QueryablesMove }
{}

/// A subscriber that the other side declares, in place of one of its number or not, or ends.
pub fn remote_subscribers_move()
    ensures { RemoteSubscribersMove }
{}

/// And a queryable.
pub fn remote_queryables_move()
    ensures { RemoteQueryablesMove }
{}

/// To look at those listeners alone for which someone came or went is to look at all.
pub fn recounts_are_current()
    ensures { RecountsAreCurrent }
{}

/// Counting anew leaves the listeners as they are.
pub fn recounts_keep_listeners()
    ensures { RecountsKeepListeners }
{}

/// Anyone matches where the count is not zero.
pub fn status_is_count()
    ensures { StatusIsCount }
{}

/// Just those listeners hear whose status changes.
pub fn changes_are_heard()
    ensures { ChangesAreHeard }
{}
