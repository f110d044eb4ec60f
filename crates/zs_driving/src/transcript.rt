//! The text of lines on its way to a sink.

ghost use Rattle.std.specs.Prelude.{◌≡◌, ◌≤◌, [], ◌++◌, OnOk, OnErr};
ghost use Rattle.zs_keys.specs.Stream.{HasRisen, PutsOn};
ghost use Rattle.zs_lines.specs.Writing.{PutsFrontOn};

use std::alloc::{AllocError, Global};
use std::marker::Model;
use zs_keys::Sink;
use zs_lines::{WriteFault, write_whole};

/// How much text waits before it is written.
const FULL: usize = 65536;

/// What was put out and is not written yet. Contracts see the text.
///
/// Its memory outlives the lines.
#[derive(Drop)]
pub struct Transcript {
    waiting: String,
}

impl Model for Transcript {
    ghost use Rattle.std.specs.Prelude.{ℕ, List};
    ghost use Rattle.std.specs.String.{string_bytes};

    ghost Value = { List ℕ };

    ghost view = { λ t. string_bytes t.waiting };
}

impl Transcript {
    /// A transcript in which nothing waits.
    pub(crate) fn new(alloc: Global) -> Transcript
        ensures { result ≡ [] }
    {
        Transcript {
            waiting: String::new(alloc),
        }
    }

    /// Puts a text behind those that wait.
    pub fn add(&mut self, text: &str) -> Result<(), AllocError>
        ensures ok { OnOk result (self.new ≡ self.old ++ text.now) }
        ensures err { OnErr result (self.new ≡ self.old) }
    {
        self.waiting.push_str(text)
    }

    /// Whether so much waits that it is to be written.
    pub(crate) fn is_full(&self) -> bool {
        self.waiting.len() >= FULL
    }

    /// Writes what waits. Nothing waits then, also where the sink failed and took but a prefix of it.
    pub(crate) fn write_to<K: Sink>(&mut self, sink: &mut K) -> Result<(), WriteFault>
        ensures whole { OnOk result (PutsOn (K.written sink.old) self.old (K.written sink.new)) }
        ensures part { PutsFrontOn (K.written sink.old) self.old (K.written sink.new) }
        ensures empty { self.new ≡ [] }
        ensures fault { OnErr result (HasRisen (K.faults sink.old) (K.faults sink.new)) }
        ensures later { K.faults sink.old ≤ K.faults sink.new }
        ensures calm { OnOk result (K.faults sink.new ≡ K.faults sink.old) }
    {
        let outcome = write_whole(sink, self.waiting.as_bytes());
        self.waiting.clear();
        outcome
    }
}
