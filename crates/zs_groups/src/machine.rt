//! The machine of the program: two sides that take lines.

ghost use Rattle.std.specs.Prelude.{◌≡◌, true, false, is_some, IfOk, IfSome, OnOk, OnErr, Ok};
ghost use Rattle.zs_lines.specs.Lines.{fields};
ghost use Rattle.zs_group_lines.specs.Lines.{line_of};
ghost use Rattle.zs_groups.specs.Behind.{IsBehind, TakesLine};
ghost use Rattle.zs_groups.specs.Sides.{Becomes};
ghost use Rattle.zs_groups.specs.Language.{Move, group_language, said_of, said_in, line_named, said_to, with_request, with_line};
ghost use Rattle.zs_driving.specs.Languages.{rules_of};

use crate::sides::Sides;
use std::alloc::AllocError;
use zs_driving::{LineMachine, Transcript};
use zs_group_lines::{GroupLine, parse_line};
use zs_lines::Line;
use zs_link::LinkSide;
use zs_script::after_prefix;

impl Sides {
    /// Takes a row of bytes. False says that it is no line.
    #[tactic(auto, using(crate::proofs::Rows::utf8_tests))]
    fn take_row(&mut self, row: &[u8], number: u64) -> Result<bool, AllocError>
        ensures known { IfOk result (λ taken. taken ≡ is_some (said_of row.now)) }
        ensures took { result ≡ Ok true → IfSome (said_of row.now) (λ said. Becomes (λ s t. with_line s number said t) self.old self.new) }
    {
        let Ok(text) = str::from_utf8(row) else {
            return Ok(false);
        };
        self.take_text(text, number)
    }

    /// Takes a row of text.
    fn take_text(&mut self, text: &str, number: u64) -> Result<bool, AllocError>
        ensures known { IfOk result (λ taken. taken ≡ is_some (said_in text.now)) }
        ensures took { result ≡ Ok true → IfSome (said_in text.now) (λ said. Becomes (λ s t. with_line s number said t) self.old self.new) }
    {
        match text {
            "ab" => self.take_move(LinkSide::A, number),
            "ba" => self.take_move(LinkSide::B, number),
            _ => self.take_named(text, number),
        }
    }

    /// The row `ab` or `ba`: all messages that wait at that side are delivered. It is a line, whatever waits.
    fn take_move(&mut self, from: LinkSide, number: u64) -> Result<bool, AllocError>
        ensures known { IfOk result (λ taken. taken ≡ true) }
        ensures took { OnOk result (Becomes (λ s t. with_line s number (Move from) t) self.old self.new) }
    {
        self.deliver_all(number, from)?;
        Ok(true)
    }

    /// Takes a row that names a side.
    fn take_named(&mut self, text: &str, number: u64) -> Result<bool, AllocError>
        ensures known { IfOk result (λ taken. taken ≡ is_some (line_named text.now)) }
        ensures took { result ≡ Ok true → IfSome (line_named text.now) (λ said. Becomes (λ s t. with_line s number said t) self.old self.new) }
    {
        if let Some(rest) = after_prefix(text, "a\t") {
            return self.take_at(LinkSide::A, rest, number);
        }
        match after_prefix(text, "b\t") {
            Some(rest) => self.take_at(LinkSide::B, rest, number),
            None => Ok(false),
        }
    }

    /// A side takes a line.
    fn take_at(&mut self, side: LinkSide, rest: &str, number: u64) -> Result<bool, AllocError>
        ensures known { IfOk result (λ taken. taken ≡ is_some (said_to side rest.now)) }
        ensures took { result ≡ Ok true → IfSome (said_to side rest.now) (λ said. Becomes (λ s t. with_line s number said t) self.old self.new) }
    {
        let Some(request) = self.read(rest)? else {
            return Ok(false);
        };
        let taken = self.take_request(side, &request, number);
        drop(request);
        taken?;
        Ok(true)
    }

    /// What a line asks of its side.
    fn read(&self, text: &str) -> Result<Option<GroupLine>, AllocError>
        ensures { IfOk result (λ found. found ≡ line_of (fields text.now)) }
    {
        parse_line(self.alloc(), text)
    }

    /// A side does what a line asks.
    fn take_request(
        &mut self,
        side: LinkSide,
        request: &GroupLine,
        number: u64,
    ) -> Result<(), AllocError>
        ensures { OnOk result (Becomes (λ s t. with_request s number side request.now t) self.old self.new) }
    {
        match request {
            GroupLine::Join(key) => self.join(number, side, key),
            GroupLine::Leave(key) => self.leave(number, side, key),
            GroupLine::View => self.show(number, side),
        }
    }

    /// Takes a row, with its text onto a transcript.
    fn take_line(
        &mut self,
        row: &[u8],
        number: u64,
        transcript: &mut Transcript,
    ) -> Result<bool, AllocError>
        ensures known { IfOk result (λ taken. taken ≡ is_some (said_of row.now)) }
        ensures took { result ≡ Ok true → IfSome (said_of row.now) (λ said. TakesLine said number self.old self.new transcript.old transcript.new) }
        ensures none { result ≡ Ok false → transcript.new ≡ transcript.old }
        ensures err { OnErr result (transcript.new ≡ transcript.old) }
    {
        self.clear();
        let taken = self.take_row(row, number)?;
        if taken {
            transcript.add(self.printed())?;
        }
        Ok(taken)
    }
}

impl LineMachine for Sides {
    ghost is_line = { λ row. is_some (said_of row) };

    ghost rules = { λ sides. rules_of (group_language sides.world.a.world.settings) };

    ghost took = { IsBehind };

    ghost closed = { λ sides r h. Unit {0} };

    /// Takes a line for a side, or a delivery. What it prints goes onto the transcript when all of it is done.
    fn take(&mut self, line: &Line, transcript: &mut Transcript) -> Result<bool, AllocError> {
        self.take_line(&line.bytes, line.number, transcript)
    }

    /// At the end of input both sessions close, and nothing is printed of it.
    fn end(&mut self, _number: u64, _transcript: &mut Transcript) -> Result<(), AllocError> {
        self.close()
    }
}
