//! A law of journals, for proofs to cite.

ghost use Rattle.zs_journals.specs.Journals.{JournalsAreRecorded};

/// What is written of the journal of a session is the recording of its events.
pub fn journals_are_recorded()
    ensures { JournalsAreRecorded }
{}
