//! Writing a payload.

ghost use Rattle.std.specs.Prelude.{◌≡◌, ◌+◌, ◌<◌, ◌≤◌, [], ◌++◌, length, Some, IfOk, IfErr, IsOk, OnOk, OnErr, vec_len, vec_capacity};
ghost use Rattle.std.specs.Io.{WritesAtMost};
ghost use Rattle.std.specs.Io.KnownBytes.{WriteAppends, Keeps};
ghost use Rattle.std.specs.IoError.{error_kind};
ghost use Rattle.zs_bytes.specs.Payload.{bytes_of, one_slice};
ghost use Rattle.zs_bytes.specs.Written.{slices_written, bytes_written};

use crate::payload::ZBytes;
use bytes::Bytes;
use std::alloc::{AllocError, Global};
use std::io::ErrorKind;
use std::marker::Model;
use std::{io, mem};

/// Makes a payload of what is written to it and of whole payloads, whose memory it shares.
#[derive(Debug, Drop)]
pub struct ZBytesWriter {
    alloc: Global,
    slices: Vec<Bytes>,
    tail: Vec<u8>,
    len: usize,
}

impl Model for ZBytesWriter {
    ghost use Rattle.std.specs.Prelude.{◌≡◌, length};
    ghost use Rattle.zs_bytes.specs.Written.{Written, bytes_written};

    ghost Value = { Written };

    ghost view = { λ w. record { slices = w.slices.items; tail = w.tail.items } };

    ghost invariant = { λ w. w.len ≡ length (bytes_written (record { slices = w.slices.items; tail = w.tail.items })) };
}

impl ZBytes {
    /// A writer that has nothing yet.
    pub fn writer(alloc: Global) -> ZBytesWriter
        ensures { result ≡ record { slices = []; tail = [] } }
    {
        ZBytesWriter {
            alloc,
            slices: Vec::new(alloc),
            tail: Vec::new(alloc),
            len: 0,
        }
    }
}

impl ZBytesWriter {
    /// Copies all the bytes to the end, and returns how many they are.
    pub fn write(&mut self, bytes: &[u8]) -> Result<usize, AllocError>
        ensures count { IfOk result (λ count. count ≡ length bytes.now) }
        ensures after { OnOk result (self.new ≡ record self.old { tail = self.old.tail ++ bytes.now }) }
        ensures err { OnErr result (self.new ≡ self.old) }
    {
        let Some(len) = self.len.checked_add(bytes.len()) else {
            return Err(AllocError);
        };
        self.tail.extend_from_slice(bytes)?;
        self.len = len;
        Ok(bytes.len())
    }

    /// Does nothing: what was written is there already.
    pub fn flush(&mut self)
        ensures { self.new ≡ self.old }
    {}

    /// Puts the slices of a payload behind all that is there. No byte is copied. Without memory the payload comes back.
    pub fn append(&mut self, value: ZBytes) -> Result<(), ZBytes>
        ensures after { OnOk result (self.new ≡ record { slices = slices_written self.old ++ value; tail = [] }) }
        ensures back { IfErr result (λ back. back ≡ value) }
        ensures err { OnErr result (self.new ≡ self.old) }
    {
        let Some(len) = self.len.checked_add(value.len()) else {
            return Err(value);
        };
        let more = value.as_slices().len() + 1;
        if self.slices.reserve(more).is_err() {
            return Err(value);
        }
        if close(self.alloc, &mut self.slices, &mut self.tail).is_err() {
            return Err(value);
        }
        value.move_into(&mut self.slices);
        self.len = len;
        Ok(())
    }

    /// Everything in order. Without memory the writer comes back.
    pub fn finish(self) -> Result<ZBytes, ZBytesWriter>
        ensures made { IfOk result (λ made. made ≡ slices_written self) }
        ensures bytes { IfOk result (λ made. bytes_of made ≡ bytes_written self) }
        ensures back { IfErr result (λ back. back ≡ self) }
    {
        if self.slices.is_empty() {
            self.finish_one()
        } else {
            self.finish_list()
        }
    }

    /// The tail alone, which takes no list.
    fn finish_one(self) -> Result<ZBytes, ZBytesWriter>
        requires { self.slices ≡ [] }
        ensures made { IfOk result (λ made. made ≡ one_slice self.tail) }
        ensures back { IfErr result (λ back. back ≡ self) }
    {
        let ZBytesWriter {
            alloc,
            slices,
            tail,
            len,
        } = self;
        match Bytes::from_vec(tail) {
            Ok(slice) => Ok(ZBytes::of_slice(slice)),
            Err(failed) => Err(ZBytesWriter {
                alloc,
                slices,
                tail: failed.value,
                len,
            }),
        }
    }

    /// The slices, and the tail behind them.
    fn finish_list(self) -> Result<ZBytes, ZBytesWriter>
        ensures made { IfOk result (λ made. made ≡ slices_written self) }
        ensures back { IfErr result (λ back. back ≡ self) }
    {
        let mut writer = self;
        if writer.slices.reserve(1).is_err() {
            return Err(writer);
        }
        if close(writer.alloc, &mut writer.slices, &mut writer.tail).is_err() {
            return Err(writer);
        }
        let ZBytesWriter { slices, len, .. } = writer;
        Ok(ZBytes::of_list(slices, len))
    }
}

/// Makes a slice of the tail, where it has a byte, and puts it behind the others.
fn close(alloc: Global, slices: &mut Vec<Bytes>, tail: &mut Vec<u8>) -> Result<(), AllocError>
    requires { vec_len slices.old < vec_capacity slices.old }
    ensures slices { OnOk result (slices.new.items ≡ slices.old.items ++ one_slice tail.old.items) }
    ensures tail { OnOk result (tail.new.items ≡ []) }
    ensures room { OnOk result ((vec_len slices.new ≤ vec_len slices.old + 1) × (vec_capacity slices.new ≡ vec_capacity slices.old)) }
    ensures err { OnErr result ((slices.new.items ≡ slices.old.items) × (tail.new.items ≡ tail.old.items)) }
{
    match Bytes::from_vec(mem::replace(tail, Vec::new(alloc))) {
        Ok(slice) => {
            if !slice.is_empty() {
                slices.push_reserved(slice);
            }
            Ok(())
        }
        Err(failed) => {
            *tail = failed.value;
            Err(AllocError)
        }
    }
}

impl io::Write for ZBytesWriter {
    ghost contents = { λ w. Some (bytes_written w) };

    /// Takes all the bytes or, for want of memory, none of them.
    fn write(&mut self, buf: &[u8]) -> io::Result<usize>
        ensures bound { WritesAtMost result buf.now }
        ensures bytes { WriteAppends (Some (bytes_written self.old)) (Some (bytes_written self.new)) result buf.now }
        ensures count { IfOk result (λ count. count ≡ length buf.now) }
        ensures after { OnOk result (self.new ≡ record self.old { tail = self.old.tail ++ buf.now }) }
        ensures err { OnErr result (self.new ≡ self.old) }
        ensures kind { IfErr result (λ e. error_kind e ≡ ErrorKind.OutOfMemory) }
    {
        Ok(ZBytesWriter::write(self, buf)?)
    }

    /// Does nothing, and never fails: what was written is there already.
    fn flush(&mut self) -> io::Result<()>
        ensures bytes { Keeps (Some (bytes_written self.old)) (Some (bytes_written self.new)) }
        ensures same { self.new ≡ self.old }
        ensures ok { IsOk result }
    {
        ZBytesWriter::flush(self);
        Ok(())
    }
}
