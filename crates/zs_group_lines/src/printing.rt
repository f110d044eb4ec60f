//! What is printed of answers and views. `number` is the line's, from 1, and `side` the letter of the side.

ghost use Rattle.std.specs.Prelude.{◌≡◌, ◌++◌, OnOk};
ghost use Rattle.std.specs.String.{string_bytes};
ghost use Rattle.zs_printing.specs.Printing.{line};
ghost use Rattle.zs_group_lines.specs.Shown.{answer_fields, not_member, member_text, view_text};

use std::alloc::AllocError;
use std::fmt::Write;
use zs_events::Answer;
use zs_members::View;
use zs_script::words::refusal_name;
use zs_side_lines::{append_ok, append_refused};

/// Puts the line of what a session answers behind a text. The number that was drawn isn't shown.
pub fn append_answer(out: &mut String, number: u64, answer: &Answer) -> Result<(), AllocError>
    ensures { OnOk result (string_bytes out.new ≡ string_bytes out.old ++ line number (answer_fields answer.now)) }
{
    match answer {
        Answer::Ok(_) => append_ok(out, number),
        Answer::Refused(refusal) => append_refused(out, number, refusal_name(*refusal)),
    }
}

/// Puts the line of a name that its side has no token of behind a text.
pub fn append_not_member(out: &mut String, number: u64) -> Result<(), AllocError>
    ensures { OnOk result (string_bytes out.new ≡ string_bytes out.old ++ not_member number) }
{
    append_refused(out, number, "NotMember")
}

/// Puts a line for each name in a view behind a text: `NUMBER SIDE sees NAME COUNT`. The names ascend by their bytes.
pub fn append_view(out: &mut String, number: u64, side: &str, view: &View) -> Result<(), AllocError>
    ensures { OnOk result (string_bytes out.new ≡ string_bytes out.old ++ view_text number side.now view.now) }
{
    'members: for (name, count) in view.iter() {
        append_member(out, number, side, name.as_str(), *count)?;
    }
    Ok(())
}

/// Puts the line of one name and its count behind a text.
fn append_member(
    out: &mut String,
    number: u64,
    side: &str,
    name: &str,
    count: u64,
) -> Result<(), AllocError>
    ensures { OnOk result (string_bytes out.new
        ≡ string_bytes out.old ++ member_text number side.now (record { name = name.now; count = count })) }
{
    writeln!(out, "{number}\t{side}\tsees\t{name}\t{count}")
}
