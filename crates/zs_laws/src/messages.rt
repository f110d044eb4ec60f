//! What is sent, and what whoever receives it reads.

ghost use Rattle.zs_laws.specs.Origins.{MessagesHaveOrigins};
ghost use Rattle.zs_laws.specs.Spelled.{SpelledTextsAreUtf8, SpelledFormsAreRead, SpelledSubscribersAreCovered, SentKeysAreSpelled};
ghost use Rattle.zs_laws.specs.Receiving.{ReceiversReadKeys};

/// Each push that an event sends is its publication, accepted and for the network: whoever reads its key as the event's makes
/// the publication's sample of it. And the key that a message names is a text that was tested.
pub fn messages_have_origins()
    ensures { MessagesHaveOrigins }
{}

/// Where the keys of events are spelled with characters, as every text of a program is, the texts that keys stand for are
/// UTF-8.
pub fn spelled_texts_are_utf8()
    ensures { SpelledTextsAreUtf8 }
{}

/// Then each message is read as what it means by a receiver of all that was sent before it.
pub fn spelled_forms_are_read()
    ensures { SpelledFormsAreRead }
{}

/// And each live subscriber that the network is told of has a key that a subscription includes which was sent and not ended.
pub fn spelled_subscribers_are_covered()
    ensures { SpelledSubscribersAreCovered }
{}

/// And each wire expression that is sent names a number of the sender's and is spelled with characters, so that an event of a
/// receiver is spelled too.
pub fn sent_keys_are_spelled()
    ensures { SentKeysAreSpelled }
{}

/// A session that was given all that another one sent of its numbers, in this order, reads the key of each message that the
/// other one sends next as the text that it means there, while it is open. It keeps what a number stands for where the other
/// one took it back, and may be told a number anew.
pub fn receivers_read_keys()
    ensures { ReceiversReadKeys }
{}
