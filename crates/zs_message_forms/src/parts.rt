//! The texts and bytes of what an event brought about.

ghost use Rattle.std.specs.Prelude.{◌≡◌, length, min, take, drop, ◌++◌, MatchOption};
ghost use Rattle.std.specs.Option.{option_copied};
ghost use Rattle.zs_bytes.specs.Payload.{bytes_of};
ghost use Rattle.zs_message_forms.specs.Contents.{bytes_in, nothing, lengths_of, part_of};

use crate::forms::Lengths;
use std::marker::Model;
use zs_bytes::ZBytes;

/// The texts and bytes of something, where they lie. Contracts see the bytes.
#[derive(Drop)]
pub struct Parts<'a> {
    pub(crate) key: &'a str,
    pub(crate) payload: Option<&'a ZBytes>,
    pub(crate) encoding: &'a str,
    pub(crate) parameters: &'a str,
    pub(crate) attachment: Option<&'a ZBytes>,
}

impl<'a> Model for Parts<'a> {
    ghost use Rattle.std.specs.Option.{option_copied};
    ghost use Rattle.zs_message_forms.specs.Contents.{Contents, bytes_in};

    ghost Value = { Contents };

    ghost view = { λ p. record {
      key = p.key.now;
      payload = bytes_in (option_copied p.payload);
      encoding = p.encoding.now;
      parameters = p.parameters.now;
      attachment = bytes_in (option_copied p.attachment);
    } };
}

impl<'a> Parts<'a> {
    /// Nothing.
    pub(crate) fn nothing() -> Parts<'a>
        ensures { result ≡ nothing }
    {
        Parts {
            key: "",
            payload: None,
            encoding: "",
            parameters: "",
            attachment: None,
        }
    }

    /// A key alone.
    pub(crate) fn of_key(key: &'a str) -> Parts<'a>
        ensures { result ≡ record nothing { key = key.now } }
    {
        Parts {
            key,
            payload: None,
            encoding: "",
            parameters: "",
            attachment: None,
        }
    }

    /// How many bytes each has.
    pub fn lengths(&self) -> Lengths
        ensures { result ≡ lengths_of self.now }
    {
        Lengths {
            key: self.key.len(),
            payload: byte_count(self.payload),
            encoding: self.encoding.len(),
            parameters: self.parameters.len(),
            attachment: byte_count(self.attachment),
        }
    }

    /// Copies as much of a part as fits to the front of `out`, and returns how many bytes: 1 is the key, 2 the payload, 3 the
    /// encoding, 4 the parameters, 5 the attachment. Another number is of no byte.
    pub fn copy(&self, part: u8, out: &mut [u8]) -> usize
        ensures count { result ≡ min (length out.old) (length (part_of part self.now)) }
        ensures written { out.new ≡ take result (part_of part self.now) ++ drop result out.old }
    {
        match part {
            1 => copy_text(self.key, out),
            2 => copy_bytes(self.payload, out),
            3 => copy_text(self.encoding, out),
            4 => copy_text(self.parameters, out),
            5 => copy_bytes(self.attachment, out),
            _ => 0,
        }
    }
}

/// How many bytes they are: 0 where there are none.
fn byte_count(bytes: Option<&ZBytes>) -> usize
    ensures { result ≡ length (bytes_in (option_copied bytes.entry)) }
{
    match bytes {
        Some(bytes) => bytes.len(),
        None => 0,
    }
}

/// Copies as much of a text as fits to the front of `out`, and returns how many bytes.
fn copy_text(text: &str, out: &mut [u8]) -> usize
    ensures count { result ≡ min (length out.old) (length text.now) }
    ensures written { out.new ≡ take result text.now ++ drop result out.old }
{
    let bytes = text.as_bytes();
    let count = out.len().min(bytes.len());
    out[..count].copy_from_slice(&bytes[..count]);
    count
}

/// The same of bytes, if there are any.
fn copy_bytes(bytes: Option<&ZBytes>, out: &mut [u8]) -> usize
    ensures count { result ≡ min (length out.old) (length (bytes_in (option_copied bytes.entry))) }
    ensures written { out.new ≡ take result (bytes_in (option_copied bytes.entry)) ++ drop result out.old }
{
    match bytes {
        Some(bytes) => bytes.reader().read(out),
        None => 0,
    }
}
