//! Laws of printed lines, for proofs to cite.

ghost use Rattle.zs_event_lines.specs.Laws.{LinesAreSayable, PrintedEventsAreLines, PrintedEventsAreRead};

/// The text of an event's line is read as the event, with the bytes of each payload in one slice.
pub fn printed_events_are_read()
    ensures { PrintedEventsAreRead }
{}

/// The text of an event's line has no line feed.
pub fn printed_events_are_lines()
    ensures { PrintedEventsAreLines }
{}

/// An event that a line without a line feed says has a line of its own, and comes back the same.
pub fn lines_are_sayable()
    ensures { LinesAreSayable }
{}
