//! The write of a whole piece, to a sink that may take less than all of it at once.
ghost use Rattle.std.specs.Prelude.{◌≡◌, ◌≤◌, OnOk, OnErr};
ghost use Rattle.zs_keys.specs.Stream.{HasRisen, PutsOn};
ghost use Rattle.zs_lines.specs.Writing.{PutsFrontOn};

use crate::bytes::behind;
use zs_keys::Sink;

/// A sink failed, or took nothing of a piece that was not empty.
#[derive(Clone, Copy, Debug, PartialEq, Eq)]
pub struct WriteFault;

/// Writes a piece, in as many writes as the sink needs. After an error the sink has taken a prefix of it.
pub fn write_whole<K: Sink>(sink: &mut K, piece: &[u8]) -> Result<(), WriteFault>
    ensures whole { OnOk result (PutsOn (K.written sink.old) piece.now (K.written sink.new)) }
    ensures part { PutsFrontOn (K.written sink.old) piece.now (K.written sink.new) }
    ensures fault { OnErr result (HasRisen (K.faults sink.old) (K.faults sink.new)) }
    ensures later { K.faults sink.old ≤ K.faults sink.new }
    ensures calm { OnOk result (K.faults sink.new ≡ K.faults sink.old) }
{
    let mut rest = piece;
    while !rest.is_empty() {
        let Ok(count) = sink.write(rest) else {
            return Err(WriteFault);
        };
        if count == 0 {
            return Err(WriteFault);
        }
        rest = behind(rest, count);
    }
    Ok(())
}
