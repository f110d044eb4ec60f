//! What holds of every program of lines.
ghost use Rattle.zs_driving.specs.Languages.{Language, TextsAreOfEvents};

/// Where the lines of a program are events, what it puts out for lines is what it puts out for their events.
pub fn texts_are_of_events<E>()
    ensures { (l : Language E) → TextsAreOfEvents l }
{}
