//! What came of a line, printed onto a transcript.

ghost use Rattle.std.specs.Prelude.{◌≡◌, [], ◌∷◌, ◌++◌, OnOk, OnErr};
ghost use Rattle.std.specs.String.{string_bytes};
ghost use Rattle.zs_delivery.specs.declared.side.LinkSide.TheVariants.{A, B};
ghost use Rattle.zs_printing.specs.Printing.{line};
ghost use Rattle.zs_link.specs.Mode.{side_text, delivered_text, mark, opposite};

use crate::world::Delivered;
use std::alloc::AllocError;
use std::fmt::Write;
use zs_delivery::LinkSide;
use zs_driving::Transcript;
use zs_events::Turn;
use zs_script::{Margin, append_marked_turn};

/// What stands behind the number in each line of a side.
fn mark(side: LinkSide) -> &'static str
    ensures { result.now ≡ mark side }
{
    match side {
        LinkSide::A => "\ta",
        LinkSide::B => "\tb",
    }
}

/// The side that a message of this one goes to.
fn opposite(side: LinkSide) -> LinkSide
    ensures { result ≡ opposite side }
{
    match side {
        LinkSide::A => LinkSide::B,
        LinkSide::B => LinkSide::A,
    }
}

/// Puts the lines of a side's turn behind a text.
fn append_side(out: &mut String, number: u64, side: LinkSide, turn: &Turn) -> Result<(), AllocError>
    ensures { OnOk result (string_bytes out.new ≡ string_bytes out.old ++ side_text number side turn.now) }
{
    let margin = Margin {
        before: "",
        number,
        behind: mark(side),
    };
    append_marked_turn(out, margin, turn)
}

/// Adds the lines of a side's turn, printed in that memory, which outlives the lines.
pub(crate) fn add_turn(
    memory: &mut String,
    transcript: &mut Transcript,
    number: u64,
    side: LinkSide,
    turn: &Turn,
) -> Result<(), AllocError>
    ensures ok { OnOk result (transcript.new ≡ transcript.old ++ side_text number side turn.now) }
    ensures err { OnErr result (transcript.new ≡ transcript.old) }
{
    memory.clear();
    append_side(memory, number, side, turn)?;
    transcript.add(memory.as_str())
}

/// Adds the lines of a turn of each side under one number, first those of the first side.
pub(crate) fn add_both(
    memory: &mut String,
    transcript: &mut Transcript,
    number: u64,
    first: &Turn,
    second: &Turn,
) -> Result<(), AllocError>
    ensures ok { OnOk result (transcript.new ≡ transcript.old ++ (side_text number A first.now ++ side_text number B second.now)) }
    ensures err { OnErr result (transcript.new ≡ transcript.old) }
{
    memory.clear();
    append_side(memory, number, LinkSide::A, first)?;
    append_side(memory, number, LinkSide::B, second)?;
    transcript.add(memory.as_str())
}

/// Adds the lines of a delivery.
pub(crate) fn add_delivered(
    memory: &mut String,
    transcript: &mut Transcript,
    number: u64,
    from: LinkSide,
    delivered: &Delivered,
) -> Result<(), AllocError>
    ensures ok { OnOk result (transcript.new ≡ transcript.old ++ delivered_text number from delivered.now) }
    ensures err { OnErr result (transcript.new ≡ transcript.old) }
{
    match delivered {
        Delivered::Nothing => add_word(memory, transcript, number, "none"),
        Delivered::Dropped => add_word(memory, transcript, number, "dropped"),
        Delivered::Taken(turn) => {
            add_turn(memory, transcript, number, opposite(from), turn.get())
        }
    }
}

/// Adds one line with a word.
fn add_word(
    memory: &mut String,
    transcript: &mut Transcript,
    number: u64,
    word: &str,
) -> Result<(), AllocError>
    ensures ok { OnOk result (transcript.new ≡ transcript.old ++ line number (word.now ∷ [])) }
    ensures err { OnErr result (transcript.new ≡ transcript.old) }
{
    memory.clear();
    writeln!(memory, "{number}\t{word}")?;
    transcript.add(memory.as_str())
}
