//! Scripts and recordings as the tests write them: with a space for each tab, `%` for the options of a plain put, `!` for a
//! byte that is in no text, and `$` for the most bytes that a line holds behind a mark and a tab.

ghost use Rattle.std.specs.Prelude.{◌<◌};

use std::alloc::{AllocError, Global};
use zs_keys::{MemorySink, MemorySource};
use zs_recordings::record_run;

/// A script with a subscriber that hears a put.
pub const SCRIPT: &str = "sub any k\nput any k x01 prio=5\n";

/// What is recorded of its lines.
pub const EVENTS: &str = "\
> sub any k
< 1 ok 2
< 1 send sub 2 s0:k
> put any k x01
< 2 ok
< 2 send push s0:k put x01 %
< 2 hand sub 2 put k x01 %
";

/// And of its end.
pub const CLOSE: &str = "> close\n< 3 ok\n< 3 send close\n< 3 end sub 2\n";

/// The options of a plain put.
const OPTIONS: &[u8] = b"enc=zenoh/bytes\tprio=5\tcc=drop\texpress=0\trel=1";

/// How many bytes a line holds behind a mark and a tab.
const LONGEST: usize = 65534;

/// Puts a text behind the bytes.
pub fn spell(bytes: &mut Vec<u8>, text: &str) -> Result<(), AllocError> {
    for byte in text.bytes() {
        match byte {
            b'%' => bytes.extend_from_slice(OPTIONS)?,
            b' ' => bytes.push(b'\t')?,
            b'!' => bytes.push(0xff)?,
            b'$' => fill(bytes)?,
            byte => bytes.push(byte)?,
        }
    }
    Ok(())
}

/// Puts the most bytes that a line holds behind a mark and a tab.
fn fill(bytes: &mut Vec<u8>) -> Result<(), AllocError> {
    for _ in 0..LONGEST {
        bytes.push(b'a')?;
    }
    Ok(())
}

/// The bytes of a text in two parts.
pub fn spelled(alloc: Global, text: &str, more: &str) -> Result<Vec<u8>, AllocError> {
    let mut bytes = Vec::new(alloc);
    spell(&mut bytes, text)?;
    spell(&mut bytes, more)?;
    Ok(bytes)
}

/// A source of these bytes that gives at most `cut` of them per read, and fails at this read.
pub fn source(
    alloc: Global,
    bytes: Vec<u8>,
    cut: usize,
    fail: u64,
) -> Result<MemorySource, AllocError>
    requires { 0 < cut }
{
    let mut failing = Vec::new(alloc);
    failing.push(fail)?;
    Ok(MemorySource::new(bytes, cut, failing))
}

/// A sink that takes at most `cut` bytes per write, and fails at this write.
pub fn sink(alloc: Global, cut: usize, fail: u64) -> Result<MemorySink, AllocError>
    requires { 0 < cut }
{
    let mut failing = Vec::new(alloc);
    failing.push(fail)?;
    Ok(MemorySink::new(alloc, cut, failing, Vec::new(alloc)))
}

/// Runs the program by one word, and returns its status.
pub fn status_of(
    alloc: Global,
    word: &str,
    source: &mut MemorySource,
    output: &mut MemorySink,
    complaints: &mut MemorySink,
) -> Result<u8, AllocError> {
    let mut words = Vec::new(alloc);
    words.push(String::from_str(alloc, word)?)?;
    Ok(record_run(alloc, words.as_slice(), source, output, complaints))
}
