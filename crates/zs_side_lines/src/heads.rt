//! The output lines that answer a line, each put behind a text. `number` is the line's, from 1.

ghost use Rattle.std.specs.Prelude.{◌≡◌, [], ◌∷◌, ◌++◌, OnOk, codes, decimal};
ghost use Rattle.std.specs.String.{string_bytes};
ghost use Rattle.zs_printing.specs.Printing.{line, answer_fields};

use std::alloc::AllocError;
use std::fmt::Write;
use zs_events::Answer;
use zs_script::words::refusal_name;

/// Puts the line of what was done behind a text.
pub fn append_ok(out: &mut String, number: u64) -> Result<(), AllocError>
    ensures { OnOk result (string_bytes out.new ≡ string_bytes out.old ++ line number (codes "ok" ∷ [])) }
{
    writeln!(out, "{number}\tok")
}

/// The same with a count.
pub fn append_count(out: &mut String, number: u64, count: usize) -> Result<(), AllocError>
    ensures { OnOk result (string_bytes out.new ≡ string_bytes out.old ++ line number (codes "ok" ∷ decimal count ∷ [])) }
{
    writeln!(out, "{number}\tok\t{count}")
}

/// Puts the line of what was refused behind a text, with the name of the refusal.
pub fn append_refused(out: &mut String, number: u64, name: &str) -> Result<(), AllocError>
    ensures { OnOk result (string_bytes out.new ≡ string_bytes out.old ++ line number (codes "refused" ∷ name.now ∷ [])) }
{
    writeln!(out, "{number}\trefused\t{name}")
}

/// Puts the line of an answer of a session behind a text.
pub fn append_answer(out: &mut String, number: u64, answer: &Answer) -> Result<(), AllocError>
    ensures { OnOk result (string_bytes out.new ≡ string_bytes out.old ++ line number (answer_fields answer.now)) }
{
    match answer {
        Answer::Ok(None) => append_ok(out, number),
        Answer::Ok(Some(drawn)) => writeln!(out, "{number}\tok\t{drawn}"),
        Answer::Refused(refusal) => append_refused(out, number, refusal_name(*refusal)),
    }
}
