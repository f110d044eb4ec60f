//! Scripts and outputs as the tests write them: with a space for each tab, `%` for the options of a plain put, and `G` for the
//! qualities of a plain get.

ghost use Rattle.std.specs.Prelude.{◌<◌};

use std::alloc::{AllocError, Global};
use zs_keys::{MemorySink, MemorySource};

/// The options of a sample that was put with none.
const QUALITY: &str = "enc=zenoh/bytes prio=5 cc=drop express=0 rel=1";

/// The qualities of a get, or of a reply, that was given none.
const BLOCKING: &str = "prio=5 cc=block express=0";

/// A subscriber that hears a put.
pub const FIRST: &str = "sub any test/k\nput any test/k x7a656e6f68\n";

/// What that script prints.
pub const FIRST_TEXT: &str = "\
1 ok 2
1 send sub 2 s0:test/k
2 ok
2 send push s0:test/k put x7a656e6f68 %
2 hand sub 2 put test/k x7a656e6f68 %
3 ok
3 send close
3 end sub 2
";

/// Puts a text behind the bytes, with tabs for spaces.
pub fn spell(bytes: &mut Vec<u8>, text: &str) -> Result<(), AllocError> {
    for byte in text.bytes() {
        spell_byte(bytes, byte)?;
    }
    Ok(())
}

/// Puts what a byte of a text stands for behind the bytes.
fn spell_byte(bytes: &mut Vec<u8>, byte: u8) -> Result<(), AllocError> {
    match byte {
        b'%' => tabbed(bytes, QUALITY),
        b'G' => tabbed(bytes, BLOCKING),
        b' ' => tabbed(bytes, " "),
        byte => Ok(bytes.push(byte)?),
    }
}

/// Puts a text behind the bytes, with tabs for spaces and nothing else changed.
fn tabbed(bytes: &mut Vec<u8>, text: &str) -> Result<(), AllocError> {
    for byte in text.bytes() {
        bytes.push(if byte == b' ' { b'\t' } else { byte })?;
    }
    Ok(())
}

/// The bytes of a script or of its text.
pub fn spelled(alloc: Global, text: &str) -> Result<Vec<u8>, AllocError> {
    let mut bytes = Vec::new(alloc);
    spell(&mut bytes, text)?;
    Ok(bytes)
}

/// Whether the bytes are those of this text.
pub fn is_spelled(alloc: Global, bytes: &[u8], text: &str) -> Result<bool, AllocError> {
    let wanted = spelled(alloc, text)?;
    Ok(bytes == wanted.as_slice())
}

/// The bytes of a line, with a tab for each space.
pub fn spelled_line(alloc: Global, line: &str) -> Result<Vec<u8>, AllocError> {
    let mut bytes = Vec::new(alloc);
    tabbed(&mut bytes, line)?;
    Ok(bytes)
}

/// The words of a line, with a space between two.
pub fn cut_words(alloc: Global, line: &str) -> Result<Vec<String>, AllocError> {
    let mut words = Vec::new(alloc);
    for word in line.split(' ') {
        push_word(alloc, &mut words, word)?;
    }
    Ok(words)
}

/// Puts a word behind the others.
fn push_word(alloc: Global, words: &mut Vec<String>, word: &str) -> Result<(), AllocError> {
    words.push(String::from_str(alloc, word)?)?;
    Ok(())
}

/// A source of these bytes that gives at most `cut` of them per read, and fails at this read.
pub fn source(
    alloc: Global,
    bytes: Vec<u8>,
    cut: usize,
    fail: u64,
) -> Result<MemorySource, AllocError>
    requires { 0 < cut }
{
    let mut failing = Vec::new(alloc);
    failing.push(fail)?;
    Ok(MemorySource::new(bytes, cut, failing))
}

/// A sink that takes at most `cut` bytes per write, and fails at this write.
pub fn sink(alloc: Global, cut: usize, fail: u64) -> Result<MemorySink, AllocError>
    requires { 0 < cut }
{
    let mut failing = Vec::new(alloc);
    failing.push(fail)?;
    Ok(MemorySink::new(alloc, cut, failing, Vec::new(alloc)))
}

/// A sink that takes at most `cut` bytes per write, and nothing at this write.
pub fn stuck_sink(alloc: Global, cut: usize, stuck: u64) -> Result<MemorySink, AllocError>
    requires { 0 < cut }
{
    let mut idle = Vec::new(alloc);
    idle.push(stuck)?;
    Ok(MemorySink::new(alloc, cut, Vec::new(alloc), idle))
}
