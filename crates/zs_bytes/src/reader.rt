//! Reading a payload.

ghost use Rattle.std.specs.Prelude.{◌≡◌, ◌+◌, ◌<◌, ◌≤◌, ◌==◌, [], ◌++◌, length, take, drop, min, pos, ◌+ℤ◌, ◌<ℤ◌, ◌≤ℤ◌, ◌↔◌, Some, IsErr, IsOk, IfOk, IfErr, OnOk, OnErr, MatchOption};
ghost use Rattle.std.specs.Io.{ReadsAtMost};
ghost use Rattle.std.specs.Io.KnownBytes.{ReadConsumes, Keeps};
ghost use Rattle.std.specs.IoError.{error_kind};
ghost use Rattle.std.specs.Int.{int_min};
ghost use Rattle.zs_bytes.specs.Payload.{bytes_of};
ghost use Rattle.zs_bytes.specs.Reading.{unread, seek_target};

use bytes::Bytes;
use std::io::{self, ErrorKind, SeekFrom};
use std::marker::Model;

/// A seek to a place below the start.
#[derive(Clone, Copy, Debug, PartialEq, Eq)]
pub struct BeforeStart;

/// Reads the bytes of a payload, whatever slices they lie in. It takes no memory.
#[derive(Drop)]
pub struct ZBytesReader<'a> {
    slices: &'a [Bytes],
    piece: &'a [u8],
    rest: &'a [Bytes],
    position: usize,
    len: usize,
}

impl<'a> Model for ZBytesReader<'a> {
    ghost use Rattle.zs_bytes.specs.Payload.{bytes_of};
    ghost use Rattle.zs_bytes.specs.Reading.{Reading, IsAt};

    ghost Value = { Reading };

    ghost view = { λ r. record { bytes = bytes_of r.slices.now; position = r.position } };

    ghost invariant = { λ r. IsAt r.slices.now r.piece.now r.rest.now r.position r.len };
}

/// The first piece that holds a byte, and the slices behind it.
fn first_piece<'a>(piece: &'a [u8], rest: &'a [Bytes]) -> (&'a [u8], &'a [Bytes])
    ensures same { result.0.now ++ bytes_of result.1.now ≡ piece.now ++ bytes_of rest.now }
    ensures end { length result.0.now ≡ 0 → bytes_of result.1.now ≡ [] }
{
    let mut piece = piece;
    let mut rest = rest;
    'slices: while piece.is_empty() {
        let Some((first, behind)) = rest.split_first() else {
            return (piece, rest);
        };
        piece = first.as_slice();
        rest = behind;
    }
    (piece, rest)
}

impl<'a> ZBytesReader<'a> {
    /// A reader at the start of slices that have `len` bytes.
    pub(crate) fn over(slices: &'a [Bytes], len: usize) -> ZBytesReader<'a>
        requires { len ≡ length (bytes_of slices.now) }
        ensures { result ≡ record { bytes = bytes_of slices.now; position = 0 } }
    {
        ZBytesReader {
            slices,
            piece: &[],
            rest: slices,
            position: 0,
            len,
        }
    }

    /// How many bytes are left.
    pub fn remaining(&self) -> usize
        ensures { result ≡ length (unread self.now) }
    {
        self.len - self.position
    }

    /// Whether no byte is left.
    pub fn is_empty(&self) -> bool
        ensures { result ≡ (length (unread self.now) == 0) }
    {
        self.remaining() == 0
    }

    /// Takes the next bytes that lie in one slice, but no more than `most`.
    pub(crate) fn take_piece(&mut self, most: usize) -> &'a [u8]
        ensures bytes { result.now ≡ take (length result.now) (unread self.old) }
        ensures within { length result.now ≤ most }
        ensures end { length result.now ≡ 0 → 0 < most → unread self.old ≡ [] }
        ensures after { self.new ≡ record self.old { position = self.old.position + length result.now } }
    {
        let (piece, rest) = first_piece(self.piece, self.rest);
        let count = piece.len().min(most);
        let (taken, left) = piece.split_at(count);
        self.piece = left;
        self.rest = rest;
        self.position += count;
        taken
    }

    /// Moves the next bytes that lie in one slice to the front of `into`.
    fn read_piece(&mut self, into: &mut [u8]) -> usize
        ensures within { result ≤ length into.new }
        ensures bytes { take result into.new ≡ take result (unread self.old) }
        ensures kept { drop result into.new ≡ drop result into.old }
        ensures left { result ≤ length (unread self.old) }
        ensures end { result ≡ 0 → 0 < length into.new → unread self.old ≡ [] }
        ensures after { self.new ≡ record self.old { position = self.old.position + result } }
    {
        let piece = self.take_piece(into.len());
        let count = piece.len();
        into[..count].copy_from_slice(piece);
        count
    }

    /// Moves the next bytes to the front of `into`, as many as fit, and returns how many.
    pub fn read(&mut self, into: &mut [u8]) -> usize
        ensures count { result ≡ min (length into.new) (length (unread self.old)) }
        ensures bytes { take result into.new ≡ take result (unread self.old) }
        ensures kept { drop result into.new ≡ drop result into.old }
        ensures after { self.new ≡ record self.old { position = self.old.position + result } }
    {
        let mut count = 0;
        'pieces: while count < into.len() {
            let more = self.read_piece(&mut into[count..]);
            if more == 0 {
                break;
            }
            count += more;
        }
        count
    }

    /// Goes on past `count` bytes.
    fn skip(&mut self, count: usize)
        requires { count ≤ length (unread self.old) }
        ensures { self.new ≡ record self.old { position = self.old.position + count } }
    {
        let mut left = count;
        'pieces: while left > 0 {
            let piece = self.take_piece(left);
            if piece.is_empty() {
                return;
            }
            left -= piece.len();
        }
    }

    /// Moves to a place, which is the end where it lies past that, and returns the new position. A place below the
    /// start is refused, and nothing moves.
    pub fn seek(&mut self, to: SeekFrom) -> Result<u64, BeforeStart>
        ensures refused { IsErr result ↔ (seek_target self.old to <ℤ pos 0) }
        ensures place { IfOk result (λ place. pos place ≡ int_min (seek_target self.old to) (pos (length self.old.bytes))) }
        ensures after { IfOk result (λ place. self.new ≡ record self.old { position = place }) }
        ensures kept { OnErr result (self.new ≡ self.old) }
    {
        let end = self.len as u64;
        let target = match to {
            SeekFrom::Start(place) => Some(place.min(end)),
            SeekFrom::End(offset) => moved(end, offset, end),
            SeekFrom::Current(offset) => moved(self.position as u64, offset, end),
        };
        let Some(place) = target else {
            return Err(BeforeStart);
        };
        *self = ZBytesReader::over(self.slices, self.len);
        self.skip(place as usize);
        Ok(place)
    }
}

/// Where a place that is moved by an offset is, up to the end; `None` below the start.
fn moved(base: u64, offset: i64, end: u64) -> Option<u64>
    requires { base ≤ end }
    ensures { MatchOption result ((pos base +ℤ offset) <ℤ pos 0)
        (λ place. (pos place ≡ int_min (pos base +ℤ offset) (pos end)) × (pos 0 ≤ℤ (pos base +ℤ offset))) }
{
    if offset < 0 {
        base.checked_sub(offset.unsigned_abs())
    } else {
        Some(base.saturating_add(offset.unsigned_abs()).min(end))
    }
}

impl<'a> io::Read for ZBytesReader<'a> {
    ghost remaining = { λ r. Some (unread r) };

    /// Copies the next bytes, as many as fit or are left, and never fails. 0 is the end, or a buffer without room.
    fn read(&mut self, buf: &mut [u8]) -> io::Result<usize>
        ensures bound { ReadsAtMost result buf.new }
        ensures bytes { ReadConsumes (Some (unread self.old)) (Some (unread self.new)) result buf.new }
        ensures count { result ≡ Ok (min (length buf.new) (length (unread self.old))) }
        ensures kept { IfOk result (λ count. drop count buf.new ≡ drop count buf.old) }
        ensures after { IfOk result (λ count. self.new ≡ record self.old { position = self.old.position + count }) }
    {
        Ok(ZBytesReader::read(self, buf))
    }
}

impl<'a> io::Seek for ZBytesReader<'a> {
    ghost stream_bytes = { λ r. Some r.bytes };

    /// Goes to a place, at most the end, and returns it in bytes from the start. Below the start it is `InvalidInput`.
    fn seek(&mut self, to: SeekFrom) -> io::Result<u64>
        ensures bytes { Keeps (Some self.old.bytes) (Some self.new.bytes) }
        ensures refused { IsErr result ↔ (seek_target self.old to <ℤ pos 0) }
        ensures kind { IfErr result (λ e. error_kind e ≡ ErrorKind.InvalidInput) }
        ensures place { IfOk result (λ place. pos place ≡ int_min (seek_target self.old to) (pos (length self.old.bytes))) }
        ensures after { IfOk result (λ place. self.new ≡ record self.old { position = place }) }
        ensures kept { OnErr result (self.new ≡ self.old) }
    {
        match ZBytesReader::seek(self, to) {
            Ok(place) => Ok(place),
            Err(BeforeStart) => Err(io::Error::from(ErrorKind::InvalidInput)),
        }
    }

    /// Goes back to the start, and never fails.
    fn rewind(&mut self) -> io::Result<()>
        ensures bytes { Keeps (Some self.old.bytes) (Some self.new.bytes) }
        ensures ok { IsOk result }
        ensures after { self.new ≡ record self.old { position = 0 } }
    {
        *self = ZBytesReader::over(self.slices, self.len);
        Ok(())
    }

    /// How many bytes are behind the reader. It never fails.
    fn stream_position(&mut self) -> io::Result<u64>
        ensures bytes { Keeps (Some self.old.bytes) (Some self.new.bytes) }
        ensures value { result ≡ Ok self.old.position }
        ensures same { self.new ≡ self.old }
    {
        Ok(self.position as u64)
    }

    /// Goes on or back by that many bytes, up to the end. Below the start it is refused, as by `seek`.
    fn seek_relative(&mut self, offset: i64) -> io::Result<()>
        ensures bytes { Keeps (Some self.old.bytes) (Some self.new.bytes) }
        ensures refused { IsErr result ↔ ((pos self.old.position +ℤ offset) <ℤ pos 0) }
        ensures place { OnOk result (pos self.new.position ≡ int_min (pos self.old.position +ℤ offset) (pos (length self.old.bytes))) }
        ensures same { self.new.bytes ≡ self.old.bytes }
        ensures kept { OnErr result (self.new ≡ self.old) }
    {
        io::Seek::seek(self, SeekFrom::Current(offset))?;
        Ok(())
    }
}
