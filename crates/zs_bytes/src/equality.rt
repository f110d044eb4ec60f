//! Payloads are equal where their bytes are, whatever slices they lie in.

ghost use Rattle.std.specs.Prelude.{◌≡◌, ◌+◌, ◌↔◌, length, take, nat_eq, IsTrue};
ghost use Rattle.std.specs.Bool.{OnTrue};
ghost use Rattle.std.specs.Cmp.{partial_equiv_from_equiv, on_equiv};
ghost use Rattle.std.specs.Cmp.Lexicographic.{pointwise, nat_list_eq_equiv};
ghost use Rattle.std.specs.Ordering.{on};
ghost use Rattle.zs_bytes.specs.Payload.{bytes_of};
ghost use Rattle.zs_bytes.specs.Reading.{unread};

use crate::payload::ZBytes;
use crate::reader::ZBytesReader;

impl<'a> ZBytesReader<'a> {
    /// Whether the next bytes are these. Where they are, the reader is behind them.
    fn takes(&mut self, bytes: &[u8]) -> bool
        ensures same { IsTrue result ↔ (take (length bytes.now) (unread self.old) ≡ bytes.now) }
        ensures after { OnTrue result (self.new ≡ record self.old { position = self.old.position + length bytes.now }) }
    {
        let mut count = 0;
        'pieces: while count < bytes.len() {
            let piece = self.take_piece(bytes.len() - count);
            if piece.is_empty() {
                return false;
            }
            if piece != &bytes[count..count + piece.len()] {
                return false;
            }
            count += piece.len();
        }
        true
    }
}

/// Whether two readers have the same bytes left.
fn same_left(left: &mut ZBytesReader<'_>, right: &mut ZBytesReader<'_>) -> bool
    ensures { IsTrue result ↔ (unread left.old ≡ unread right.old) }
{
    if left.remaining() != right.remaining() {
        return false;
    }
    'pieces: loop {
        let piece = left.take_piece(usize::MAX);
        if piece.is_empty() {
            return true;
        }
        if !right.takes(piece) {
            return false;
        }
    }
}

impl PartialEq for ZBytes {
    ghost eq = { on bytes_of (pointwise nat_eq) };

    ghost laws = { partial_equiv_from_equiv (on_equiv bytes_of nat_list_eq_equiv) };

    /// Whether the bytes are the same in the same order, wherever the slices are cut. It takes no memory.
    fn eq(&self, other: &Self) -> bool {
        same_left(&mut self.reader(), &mut other.reader())
    }
}

impl Eq for ZBytes {
    ghost laws = { on_equiv bytes_of nat_list_eq_equiv };
}
