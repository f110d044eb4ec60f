//! Laws over scripts: each is the contract of a function that does nothing but call the laws that it rests on.

ghost use Rattle.zs_script_laws.specs.Spoken.{LinesAreSpelled, SentByLinesIsRead, SubscribersOfLinesAreCovered};

use zs_laws::{spelled_forms_are_read, spelled_subscribers_are_covered};
use zs_script::laws::events_are_plain;

/// The keys of what lines say are spelled with characters.
pub fn lines_are_spelled()
    ensures { LinesAreSpelled }
{
    events_are_plain();
}

/// So each message that a line's event sends is read as what it means by a receiver of all that was sent for the lines before
/// it. The texts of the settings' aggregates are UTF-8, as those of all keys that a program holds.
pub fn sent_by_lines_is_read()
    ensures { SentByLinesIsRead }
{
    events_are_plain();
    spelled_forms_are_read();
}

/// And behind any lines each live subscriber that the network is told of has a key that a subscription includes which was sent
/// and not ended, as a receiver reads it.
pub fn subscribers_of_lines_are_covered()
    ensures { SubscribersOfLinesAreCovered }
{
    events_are_plain();
    spelled_subscribers_are_covered();
}
