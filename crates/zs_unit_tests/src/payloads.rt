//! Each way to a payload once with memory at hand, shared memory, and payloads across threads.

use bytes::Bytes;
use std::alloc::{AllocError, Global};
use std::io::Write;
use zs_bytes::{Text, ZBytes, ZBytesWriter, from_reader};
use zs_keys::MemorySource;

/// Appends a slice, which is dropped where there is no memory for it.
fn append(writer: &mut ZBytesWriter, slice: ZBytes) -> Result<(), AllocError> {
    match writer.append(slice) {
        Ok(()) => Ok(()),
        Err(slice) => {
            drop(slice);
            Err(AllocError)
        }
    }
}

/// What a writer made; the writer is dropped where there is no memory for that.
fn finish(writer: ZBytesWriter) -> Result<ZBytes, AllocError> {
    match writer.finish() {
        Ok(made) => Ok(made),
        Err(writer) => {
            drop(writer);
            Err(AllocError)
        }
    }
}

/// Writes bytes, a slice and bytes.
fn write_three(alloc: Global, writer: &mut ZBytesWriter) -> Result<(), AllocError> {
    writer.write(b"ab")?;
    let slice = ZBytes::from_str(alloc, "cd")?;
    append(writer, slice)?;
    writer.write(b"e")?;
    Ok(())
}

/// What a writer made of bytes and slices.
fn written(alloc: Global) -> Result<ZBytes, AllocError> {
    let mut writer = ZBytes::writer(alloc);
    match write_three(alloc, &mut writer) {
        Ok(()) => finish(writer),
        Err(error) => Err(error),
    }
}

/// What std's trait of writers made.
fn written_by_std(alloc: Global) -> Result<ZBytes, AllocError> {
    let mut writer = ZBytes::writer(alloc);
    match Write::write(&mut writer, b"abcde") {
        Ok(_) => finish(writer),
        Err(_) => Err(AllocError),
    }
}

/// A copy of what a writer made.
fn copied(alloc: Global) -> Result<ZBytes, AllocError> {
    let value = written(alloc)?;
    value.try_clone(alloc)
}

/// What a source gave in pieces of two bytes.
fn read(alloc: Global) -> Result<ZBytes, AllocError> {
    let bytes = b"abcde".to_vec(alloc)?;
    let mut source = MemorySource::new(bytes, 2, Vec::new(alloc));
    match from_reader(alloc, &mut source, 4) {
        Ok(value) => Ok(value),
        Err(_) => Err(AllocError),
    }
}

/// A way to make a payload.
enum Way {
    Vec,
    Slice,
    Array,
    String,
    Str,
    Bytes,
    Written,
    WrittenByStd,
    Copied,
    Read,
}

static WAYS: [(Way, &str); 10] = [
    (Way::Vec, "from_vec"),
    (Way::Slice, "from_slice"),
    (Way::Array, "from_array"),
    (Way::String, "from_string"),
    (Way::Str, "from_str"),
    (Way::Bytes, "from_bytes"),
    (Way::Written, "a writer"),
    (Way::WrittenByStd, "a writer by std"),
    (Way::Copied, "try_clone"),
    (Way::Read, "from_reader"),
];

/// The payload `abcde`, made in that way.
fn made(alloc: Global, way: &Way) -> Result<ZBytes, AllocError> {
    match way {
        Way::Vec => ZBytes::from_vec(alloc, b"abcde".to_vec(alloc)?),
        Way::Slice => ZBytes::from_slice(alloc, b"abcde"),
        Way::Array => ZBytes::from_array(alloc, b"abcde"),
        Way::String => ZBytes::from_string(alloc, String::from_str(alloc, "abcde")?),
        Way::Str => ZBytes::from_str(alloc, "abcde"),
        Way::Bytes => ZBytes::from_bytes(alloc, Bytes::from_static(b"abcde")),
        Way::Written => written(alloc),
        Way::WrittenByStd => written_by_std(alloc),
        Way::Copied => copied(alloc),
        Way::Read => read(alloc),
    }
}

/// Whether a payload is `abcde` as a text.
fn has_text(alloc: Global, value: &ZBytes) -> bool {
    match value.try_to_string(alloc) {
        Ok(text) => text.as_str() == "abcde",
        Err(_) => false,
    }
}

/// Whether a payload is `abcde` as bytes.
fn has_bytes(alloc: Global, value: &ZBytes) -> bool {
    match value.to_bytes(alloc) {
        Ok(bytes) => bytes.as_slice() == b"abcde".as_slice(),
        Err(_) => false,
    }
}

/// Whether a payload that is made in that way has the text and the bytes that it was made of.
fn is_whole(alloc: Global, way: &Way) -> bool {
    match made(alloc, way) {
        Ok(value) => has_text(alloc, &value) && has_bytes(alloc, &value),
        Err(_) => false,
    }
}

/// Each way makes the same payload while memory is there.
#[test]
fn ways_to_a_payload(rt: HostRuntime) {
    for (way, name) in &WAYS {
        assert!(rt; is_whole(rt.alloc(), way), "{name}");
    }
}

/// The copy of a payload of these bytes.
fn copy_of(alloc: Global, bytes: &Bytes) -> Result<ZBytes, AllocError> {
    let value = ZBytes::from_bytes(alloc, bytes.clone()?)?;
    value.try_clone(alloc)
}

/// What a writer makes of a payload.
fn appended(alloc: Global, value: ZBytes) -> Result<ZBytes, AllocError> {
    let mut writer = ZBytes::writer(alloc);
    match append(&mut writer, value) {
        Ok(()) => finish(writer),
        Err(error) => Err(error),
    }
}

/// Whether bytes are shared by a payload that was copied and appended, and by nobody once it is gone.
fn is_shared(alloc: Global, bytes: &Bytes) -> Result<bool, AllocError> {
    let copy = copy_of(alloc, bytes)?;
    let value = appended(alloc, copy)?;
    let shared = !bytes.is_unique();
    drop(value);
    Ok(shared && bytes.is_unique())
}

/// Whether payloads share bytes that are made of a vector.
fn shares(alloc: Global) -> Result<bool, AllocError> {
    let bytes = Bytes::from_vec(b"abc".to_vec(alloc)?)?;
    is_shared(alloc, &bytes)
}

/// Neither a copy nor a writer copies a payload's bytes: they share its memory, and let it go at the end.
#[test]
fn memory_is_shared(rt: HostRuntime) {
    assert!(rt; shares(rt.alloc()) == Ok(true));
}

/// Values of the type may go to another thread, and be used by several.
fn goes_to_threads<T: Send + Sync>(_value: &T) {}

/// Payloads, their writers and texts are `Send` and `Sync`.
#[test]
fn threads(rt: HostRuntime) {
    goes_to_threads(&ZBytes::new());
    goes_to_threads(&ZBytes::writer(rt.alloc()));
    goes_to_threads(&Text::zenoh_bytes());
}
