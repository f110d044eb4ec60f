//! A law over the lines of linked sessions.

ghost use Rattle.zs_link.specs.Laws.{LinesAreHanded};

use zs_delivery::delivered_are_handed;
use zs_script::laws::events_are_plain;

/// Behind the lines that any rows are: where the oldest message that waits is a push, it is that of an accepted publication,
/// whose destination has the network in it, and an open receiver hands the publication's sample to exactly those of its
/// subscribers that are live then, take what is incoming and meet its key. The texts of the settings' aggregates are UTF-8.
pub fn lines_are_handed()
    ensures { LinesAreHanded }
{
    delivered_are_handed();
    events_are_plain();
}
