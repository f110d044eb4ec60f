//! Laws over publications: each is the contract of a function that does nothing but call the laws that it rests on.

ghost use Rattle.zs_arrivals.specs.Arrivals.{ArrivalsAreInOrder};
ghost use Rattle.zs_arrivals.specs.Samples.{SamplesFollowPublications};

use zs_laws::{
    messages_have_origins, sent_keys_are_spelled, spelled_texts_are_utf8, wire_forms_are_read,
};

/// An event hands a subscriber just the samples of its publication: one where the subscriber is live then and the publication
/// reaches it and meets its key, and none else, whatever the event is.
pub fn samples_follow_publications()
    ensures { SamplesFollowPublications }
{}

/// Behind every schedule, while a side is open, the publications that came in at it are those that the other side's accepted
/// events made for the network, in their order, each once, but for the newest, whose pushes still wait.
pub fn arrivals_are_in_order()
    ensures { ArrivalsAreInOrder }
{
    wire_forms_are_read();
    messages_have_origins();
    spelled_texts_are_utf8();
    sent_keys_are_spelled();
}
