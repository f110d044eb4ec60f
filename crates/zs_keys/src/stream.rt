//! Where bytes come from and go to, with a count of what went wrong.

ghost use Rattle.std.specs.Prelude.{◌≡◌, ℕ, ◌<◌, ◌≤◌, List, [], length, take, Option, None, IfOk, OnOk, OnErr};
ghost use Rattle.zs_keys.specs.Stream.{HasRisen, TakesOff, PutsOn, HoldsNothing, count_after, pieces_after};

/// A read or a write that failed. The count of faults of its source or sink has risen.
#[derive(Clone, Copy, Debug, PartialEq, Eq)]
pub struct Failed;

/// Something that bytes are read from.
///
/// `left` is the bytes that it still holds, where it tells them. `reads` counts the reads, and `pieces` those of them
/// that gave bytes, so that the others failed or saw the end. `faults` counts what went wrong in it. Each count stands
/// still at the last value of a `u64`, and a count of faults that stands there passes for one that has just risen.
pub trait Source {
    ghost left: { Self → Option (List ℕ) } = { λ _. None };

    ghost reads: { Self → ℕ };

    ghost pieces: { Self → ℕ };

    ghost faults: { Self → ℕ };

    /// Moves the next bytes to the front of `into`, and returns how many. No byte for a buffer that is not empty is
    /// the end of input.
    fn read(&mut self, into: &mut [u8]) -> Result<usize, Failed>
        ensures within { IfOk result (λ count. count ≤ length into.new) }
        ensures taken { IfOk result (λ count. TakesOff (left self.old) (take count into.new) (left self.new)) }
        ensures ended { result ≡ Ok 0 → 0 < length into.new → HoldsNothing (left self.old) }
        ensures kept { OnErr result (TakesOff (left self.old) [] (left self.new)) }
        ensures counted { reads self.new ≡ count_after (reads self.old) 1 }
        ensures given { pieces self.new ≡ pieces_after (pieces self.old) result }
        ensures later { faults self.old ≤ faults self.new }
        ensures calm { OnOk result (faults self.new ≡ faults self.old) }
        ensures failed { OnErr result (HasRisen (faults self.old) (faults self.new)) };
}

/// Something that bytes are written to.
///
/// `written` is the bytes that it took, where it tells them. `faults` counts what went wrong in it, as in a
/// [`Source`].
pub trait Sink {
    ghost written: { Self → Option (List ℕ) } = { λ _. None };

    ghost faults: { Self → ℕ };

    /// Takes bytes from the front of `piece`, and returns how many. No byte of a piece that is not empty is a fault.
    fn write(&mut self, piece: &[u8]) -> Result<usize, Failed>
        ensures within { IfOk result (λ count. count ≤ length piece.now) }
        ensures taken { IfOk result (λ count. PutsOn (written self.old) (take count piece.now) (written self.new)) }
        ensures kept { OnErr result (PutsOn (written self.old) [] (written self.new)) }
        ensures later { faults self.old ≤ faults self.new }
        ensures calm { IfOk result (λ count. 0 < count → faults self.new ≡ faults self.old) }
        ensures failed { OnErr result (HasRisen (faults self.old) (faults self.new)) }
        ensures stuck { result ≡ Ok 0 → 0 < length piece.now → HasRisen (faults self.old) (faults self.new) };
}
