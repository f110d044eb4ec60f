//! Laws over linked histories: each is the contract of a function that does nothing but call the laws that it rests on.

ghost use Rattle.zs_delivery.specs.Links.{LinksAreInOrder};
ghost use Rattle.zs_delivery.specs.Delivery.{DeliveredAreHanded};
ghost use Rattle.zs_delivery.specs.Told.{ToldAreDeclared};
ghost use Rattle.zs_delivery.specs.Tokens.{RemoteTokensAreDeclared};

use zs_laws::{
    messages_have_origins, sent_keys_are_spelled, spelled_texts_are_utf8, wire_forms_are_read,
};

/// Behind every schedule, what a side sent is what was delivered of it and what still waits, in order and each once; and what
/// came in at the other side is just what was delivered, but for interests, which are dropped.
pub fn links_are_in_order()
    ensures { LinksAreInOrder }
{}

/// Behind every schedule, where the oldest message that waits is a push, it is that of an accepted publication, whose
/// destination has the network in it; and an open receiver hands the publication's sample to exactly those of its subscribers
/// that are live then, take what is incoming and meet its key, and sends nothing. So a publication for its own session alone is
/// never delivered.
pub fn delivered_are_handed()
    ensures { DeliveredAreHanded }
{
    wire_forms_are_read();
    messages_have_origins();
    spelled_texts_are_utf8();
    sent_keys_are_spelled();
}

/// Behind every schedule, where nothing waits of what a side sent and the other side is open, the other was told of exactly those
/// subscribers and queryables that the side declared to the network and did not end: under each number the last declaration, on
/// the key that it means.
pub fn told_are_declared()
    ensures { ToldAreDeclared }
{
    wire_forms_are_read();
    messages_have_origins();
    spelled_texts_are_utf8();
    sent_keys_are_spelled();
}

/// And it was told of exactly those liveliness tokens that the side declared to the network and did not end, each once, in
/// ascending order of their numbers: those that the side's accepted events declared and no later one ended. No token is told as
/// the answer to an interest, since a session answers none.
pub fn remote_tokens_are_declared()
    ensures { RemoteTokensAreDeclared }
{
    wire_forms_are_read();
    messages_have_origins();
    spelled_texts_are_utf8();
    sent_keys_are_spelled();
}
