//! Laws over the definitions. The functions do nothing: their contracts are the laws.

ghost use Rattle.zs_script.specs.Laws.{LinesHaveNoLineFeed, FieldsArePlain, EventsArePlain, AnswersArePlain, EffectsArePlain, ReceivedArePlain, LinesAreFound, FieldsAreFound, TurnsAreFound};

/// No line of any input has a line feed.
pub fn lines_have_no_line_feed()
    ensures { LinesHaveNoLineFeed }
{}

/// The fields of a line have neither tabs nor line feeds.
pub fn fields_are_plain()
    ensures { FieldsArePlain }
{}

/// The texts of what a line says have neither tabs nor line feeds.
pub fn events_are_plain()
    ensures { EventsArePlain }
{}

/// A printed answer has fields with neither tabs nor line feeds.
pub fn answers_are_plain()
    ensures { AnswersArePlain }
{}

/// A printed effect has fields with neither tabs nor line feeds, where its texts have neither.
pub fn effects_are_plain()
    ensures { EffectsArePlain }
{}

/// What a read of a channel is answered is printed in fields with neither tabs nor line feeds, where its texts have
/// neither.
pub fn received_are_plain()
    ensures { ReceivedArePlain }
{}

/// A printed line is one line.
pub fn lines_are_found()
    ensures { LinesAreFound }
{}

/// The fields of a printed line are those that it was printed from.
pub fn fields_are_found()
    ensures { FieldsAreFound }
{}

/// The lines of a printed turn are its answer and its effects, where their texts have neither tabs nor line feeds.
pub fn turns_are_found()
    ensures { TurnsAreFound }
{}
