//! Laws on the texts of scripts: what they tell of each event.

ghost use Rattle.zs_session.specs.Laws.{TextTells};

/// The text of a script tells of each event: a refusal just where one of its causes holds, and else the hand-overs of
/// a publication to just the live subscribers whose locality and key allow it. The texts of the settings' aggregates are
/// UTF-8, as those of all keys that a program holds.
pub fn text_tells()
    ensures { TextTells }
{}
