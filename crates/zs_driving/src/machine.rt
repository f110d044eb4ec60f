//! What a program of lines has to do to be driven.
ghost use Rattle.std.specs.Prelude.{◌≡◌, ℕ, ◌+◌, Bool, true, false, List, [], ◌∷◌, ◌++◌, length, Ok, IfOk, OnOk, OnErr};
ghost use Rattle.zs_driving.specs.Tasks.{Rules};

use crate::transcript::Transcript;
use std::alloc::AllocError;
use zs_lines::Line;

/// A program of lines: it takes one line after the other, and then the end of input, and puts out text for each.
///
/// Its rules say which text it owes. `took` says that a machine owes by these rules, and that these lines are what it
/// took, the newest first; `closed`, that it took the end behind them.
pub trait LineMachine {
    ghost is_line: { List ℕ → Bool };

    ghost rules: { Self → Rules };

    ghost took: { Self → Rules → List (List ℕ) → Type 0 };

    ghost closed: { Self → Rules → List (List ℕ) → Type 0 };

    /// Takes a line, and adds its text to the transcript. False says that it is no line of the program.
    ///
    /// # Errors
    ///
    /// Want of memory alone. Then, and for what is no line, no text was added, and the machine isn't used again.
    fn take(&mut self, line: &Line, transcript: &mut Transcript) -> Result<bool, AllocError>
        ensures known { IfOk result (λ taken. taken ≡ is_line line.now.bytes.items) }
        ensures text { result ≡ Ok true → (r : Rules) (h : List (List ℕ)) → took self.old r h → line.now.number ≡ length h + 1
            → transcript.new ≡ transcript.old ++ r.line_text h line.now.bytes.items }
        ensures goes_on { result ≡ Ok true → (r : Rules) (h : List (List ℕ)) → took self.old r h → line.now.number ≡ length h + 1
            → took self.new r (line.now.bytes.items ∷ h) }
        ensures none { result ≡ Ok false → transcript.new ≡ transcript.old }
        ensures err { OnErr result (transcript.new ≡ transcript.old) };

    /// Takes the end of input, which has the number behind the last line's, and adds its text to the transcript.
    ///
    /// # Errors
    ///
    /// Want of memory alone. Then no text was added, and the machine isn't used again.
    fn end(&mut self, number: u64, transcript: &mut Transcript) -> Result<(), AllocError>
        ensures text { OnOk result ((r : Rules) (h : List (List ℕ)) → took self.old r h → number ≡ length h + 1
            → transcript.new ≡ transcript.old ++ r.end_text h) }
        ensures closes { OnOk result ((r : Rules) (h : List (List ℕ)) → took self.old r h → number ≡ length h + 1 → closed self.new r h) }
        ensures err { OnErr result (transcript.new ≡ transcript.old) };
}
