//! Text that waits to be read.

ghost use Rattle.std.specs.Prelude.{◌≡◌, ◌≤◌, [], ◌++◌, length, take, drop, min, OnOk, OnErr};

use std::alloc::{AllocError, Global};
use std::marker::Model;

/// Bytes that were added and not read yet. Contracts see them as a list.
///
/// They begin at `start`, so that reading moves nothing.
#[derive(Drop)]
pub(crate) struct KeptText {
    bytes: Vec<u8>,
    start: usize,
}

impl Model for KeptText {
    ghost use Rattle.std.specs.Prelude.{ℕ, ◌≤◌, List, drop, vec_len};

    ghost Value = { List ℕ };

    ghost view = { λ k. drop k.start k.bytes.items };

    ghost invariant = { λ k. k.start ≤ vec_len k.bytes };
}

impl KeptText {
    /// No bytes wait. It takes its memory from `alloc`.
    pub(crate) fn new(alloc: Global) -> KeptText
        ensures { result ≡ [] }
    {
        KeptText {
            bytes: Vec::new(alloc),
            start: 0,
        }
    }

    /// How many bytes wait to be read.
    pub(crate) fn len(&self) -> usize
        ensures { result ≡ length self.now }
    {
        self.bytes.len() - self.start
    }

    /// Adds bytes behind those that wait.
    pub(crate) fn add(&mut self, text: &[u8]) -> Result<(), AllocError>
        ensures ok { OnOk result (self.new ≡ self.old ++ text.now) }
        ensures err { OnErr result (self.new ≡ self.old) }
    {
        self.bytes.extend_from_slice(text)
    }

    /// Lets go of all but the first `count`.
    pub(crate) fn truncate(&mut self, count: usize)
        requires { count ≤ length self.old }
        ensures { self.new ≡ take count self.old }
    {
        self.bytes.truncate(self.start + count);
    }

    /// Moves as many as there are and fit to the front of `out`, and returns how many.
    pub(crate) fn read(&mut self, out: &mut [u8]) -> usize
        ensures count { result ≡ min (length out.old) (length self.old) }
        ensures written { out.new ≡ take result self.old ++ drop result out.old }
        ensures left { self.new ≡ drop result self.old }
    {
        let waiting = &self.bytes[self.start..];
        let count = out.len().min(waiting.len());
        out[..count].copy_from_slice(&waiting[..count]);
        self.start += count;
        self.forget_read();
        count
    }

    /// Moves what waits to the front of the memory, once as much was read as waits: so the memory never has twice as much
    /// as waits, and a byte is moved once at most for each that was read.
    fn forget_read(&mut self)
        ensures { self.new ≡ self.old }
    {
        let waiting = self.bytes.len() - self.start;
        if waiting <= self.start {
            self.bytes.rotate_left(self.start);
            self.bytes.truncate(waiting);
            self.start = 0;
        }
    }
}
