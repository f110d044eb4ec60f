//! Laws over the definitions: each is the contract of a function that does nothing.

ghost use Rattle.zs_standing.specs.Laws.{AnswersAreNumbered, TableIsLive, SubscribersAscend, PublishersAreLive, QueryablesAreLive, QueriersAreLive, GroupsAreLive, KeysAreHeld, HoldersAreCounted, KeysAreTold, CountersAreTold, ClosedIsTold, TextsAreNamed, NumbersAreDrawn, FirstCause, RefusalsHaveCauses, GetsAreTold, MomentsAreTold, ValuesAreTold, TokensAreTold, CancellationsAreTold, TokensAreLive, LsubsAreLive, AskingsAreTold, AskingsGoOn, ListenersAreLive, ToldAreLast};

/// An accepted event is answered a number exactly where its kind draws one, or asks for a status.
pub fn answers_are_numbered()
    ensures { AnswersAreNumbered }
{}

/// After any history the table of subscribers holds those that were declared and not ended since, and no others.
pub fn table_is_live()
    ensures { TableIsLive }
{}

/// After any history the live subscribers stand in ascending number, each once.
pub fn subscribers_ascend()
    ensures { SubscribersAscend }
{}

/// After any history the table of publishers holds those that were declared and not ended since, and no others.
pub fn publishers_are_live()
    ensures { PublishersAreLive }
{}

/// After any history the table of queryables holds those that were declared and not ended since, and no others.
pub fn queryables_are_live()
    ensures { QueryablesAreLive }
{}

/// After any history the table of queriers holds those that were declared and not ended since, and no others.
pub fn queriers_are_live()
    ensures { QueriersAreLive }
{}

/// After any history the table of this session's tokens holds those that were declared and not ended since, and no others.
pub fn tokens_are_live()
    ensures { TokensAreLive }
{}

/// After any history the table of subscribers to liveliness holds those that were declared and not ended since, and no
/// others.
pub fn lsubs_are_live()
    ensures { LsubsAreLive }
{}

/// After any history the table of tokens that the network told has under each number the key that it told first of it, in
/// no answer to a get, and has not ended since; and no others.
pub fn tokens_are_told()
    ensures { TokensAreTold }
{}

/// After any history the table of liveliness gets holds those that the events tell to be open, and no others.
pub fn askings_are_told()
    ensures { AskingsAreTold }
{}

/// Behind any event the open liveliness gets are those that were open before it and that it doesn't end, and the one that
/// it asks. So each ends at most once.
pub fn askings_go_on()
    ensures { AskingsGoOn }
{}

/// After any history the group of a text has as members the live entities of its kind that the network is told of and that
/// share the text, and the number of the first that joined it since it was last empty.
pub fn groups_are_live()
    ensures { GroupsAreLive }
{}

/// After any history the table of declared keys has each number that was given back less often than it was declared,
/// with the text of the event that drew it, and no others.
pub fn keys_are_held()
    ensures { KeysAreHeld }
{}

/// After any history each number is held as often as it was declared and not given back.
pub fn holders_are_counted()
    ensures { HoldersAreCounted }
{}

/// After any history the table of told keys has each number that the network told, with the text that it told last.
pub fn keys_are_told()
    ensures { KeysAreTold }
{}

/// After any history each counter stands at its first number and one more for each that was drawn.
pub fn counters_are_told()
    ensures { CountersAreTold }
{}

/// After any history the table of gets holds those that the events tell to be open, each with the finals that it waits for
/// and the replies that it keeps, and no others.
pub fn gets_are_told()
    ensures { GetsAreTold }
{}

/// After any history the counter of gets stands at its first number and one more for each that was asked, and the moment
/// is the greatest that was told.
pub fn moments_are_told()
    ensures { MomentsAreTold }
{}

/// After any history the table of query values holds those that an event drew and none gave back since, and no others; the
/// next number is how many were drawn.
pub fn values_are_told()
    ensures { ValuesAreTold }
{}

/// After any history the counter of cancellation tokens stands at how many were drawn, and those are marked as taken which an
/// event cancelled, and no others.
pub fn cancellations_are_told()
    ensures { CancellationsAreTold }
{}

/// A session is closed exactly where an event of its history closed it.
pub fn closed_is_told()
    ensures { ClosedIsTold }
{}

/// The text that an event's key stands for, by the tables, is the one that the events before it tell.
pub fn texts_are_named()
    ensures { TextsAreNamed }
{}

/// The number that an event is answered, by the tables, is the one that the events before it tell.
pub fn numbers_are_drawn()
    ensures { NumbersAreDrawn }
{}

/// The refusal of an event, by the tables, is the first in the one order of refusals whose cause the events before it tell.
pub fn first_cause()
    ensures { FirstCause }
{}

/// Behind any history an event is refused exactly where one of the causes holds, and the refusal names one that holds.
pub fn refusals_have_causes()
    ensures { RefusalsHaveCauses }
{}

/// After any history the table of listeners holds those that were declared and that nothing ended since, and no others: a
/// listener ends with its publisher or querier too.
pub fn listeners_are_live()
    ensures { ListenersAreLive }
{}

/// After any history the tables of told subscribers and queryables hold those that the network told last of their numbers and
/// did not end since, and no others, whatever is asked of any of them.
pub fn told_are_last()
    ensures { ToldAreLast }
{}
