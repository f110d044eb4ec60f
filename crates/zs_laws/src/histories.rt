//! Laws of what the events of a history bring about, each the contract of a function that does nothing.

ghost use Rattle.zs_standing.specs.Laws.{HeldTextsKeepNumbers, KeyNumbersAreNew, ListsAreTests, WireFormsAreRead, OneMessageAtMost, SubscribersAreCovered, TakenCancellationTokensEndNothing, FinalsAreDue, RequestsEndOnce, ListenersKnow, ListenersHearChanges, OthersHearNothing};

/// After any history no open get has a cancellation token that was taken: so one that is cancelled again ends no get.
pub fn taken_cancellation_tokens_end_nothing()
    ensures { TakenCancellationTokensEndNothing }
{}

/// A request from the network is sent its final at once where it meets no queryable, else when its last value is given back
/// while the session is open, and no other event sends a final.
pub fn finals_are_due()
    ensures { FinalsAreDue }
{}

/// After any history the last value of a request was given back once where it met queryables and none of its values is
/// unfinished, and else never: so no request has two finals.
pub fn requests_end_once()
    ensures { RequestsEndOnce }
{}

/// A text that is held keeps its number where it is declared again.
pub fn held_texts_keep_numbers()
    ensures { HeldTextsKeepNumbers }
{}

/// A declaration that isn't answered a held number is answered one that none was answered before.
pub fn key_numbers_are_new()
    ensures { KeyNumbersAreNew }
{}

/// After any history the list that a number keeps is the test of every live subscriber against the text that the number
/// stands for, by the events alone.
pub fn lists_are_tests()
    ensures { ListsAreTests }
{}

/// The form that a message gives a key is read as the key's text: for each message that an event sends and that names
/// a key, by a receiver of all that the session sent before, where the texts are UTF-8, as those of a program are.
pub fn wire_forms_are_read()
    ensures { WireFormsAreRead }
{}

/// No event sends more than one message.
pub fn one_message_at_most()
    ensures { OneMessageAtMost }
{}

/// After any history each live subscriber that the network is told of has a key that is included in a subscription which the
/// session sent and did not end, as a receiver of its messages reads it, where the texts are UTF-8, as those of a program are.
/// A closed session has no live subscriber.
pub fn subscribers_are_covered()
    ensures { SubscribersAreCovered }
{}

/// After any history each live listener was told last what is so, whether anyone matches, or was told nothing and nobody does.
pub fn listeners_know()
    ensures { ListenersKnow }
{}

/// An event tells each listener that lives behind it whether anyone matches, once, where that is not what it was told last, and
/// else nothing.
pub fn listeners_hear_changes()
    ensures { ListenersHearChanges }
{}

/// No event tells anything to a listener that doesn't live behind it.
pub fn others_hear_nothing()
    ensures { OthersHearNothing }
{}
