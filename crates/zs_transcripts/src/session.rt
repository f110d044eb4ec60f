//! What runs are made of: their settings, their streams and their errors.

use crate::spelling::cut_words;
use std::alloc::{AllocError, Global};
use std::io::{self, Read, Write};
use std::test::Fail;
use zs_keys::{KeyExpr, Sink, Source};
use zs_session::{DriveError, KeyList, Settings, StdSink, StdSource, settings_of};

/// A reader and writer that passes one byte, and then fails.
#[derive(Drop)]
struct Once(bool);

impl Read for Once {
    /// Gives a line feed once, where there is room for it, and an error else.
    fn read(&mut self, into: &mut [u8]) -> io::Result<usize> {
        if self.0 || into.is_empty() {
            return Err(io::Error::from(io::ErrorKind::Other));
        }
        self.0 = true;
        into[0] = b'\n';
        Ok(1)
    }
}

impl Write for Once {
    /// Takes one byte once, of a piece that has any, and fails else.
    fn write(&mut self, piece: &[u8]) -> io::Result<usize> {
        if self.0 || piece.is_empty() {
            return Err(io::Error::from(io::ErrorKind::Other));
        }
        self.0 = true;
        Ok(1)
    }

    /// Nothing is held back, so that nothing fails here.
    fn flush(&mut self) -> io::Result<()> {
        Ok(())
    }
}

/// Whether the byte of such a reader is read, and then its error.
fn reads_once() -> bool {
    let mut source = StdSource::new(Once(false));
    let mut into = [0u8; 4];
    let count = source.read(&mut into).ok();
    count == Some(1) && into[0] == b'\n' && source.read(&mut into).is_err()
}

/// Whether one byte is written to such a writer, and then none.
fn writes_once() -> bool {
    let mut sink = StdSink::new(Once(false));
    sink.write(b"ab").ok() == Some(1) && sink.write(b"b").is_err()
}

/// A source and a sink over `std` streams pass what came before an error, and then the error.
#[test]
fn std_readers_and_writers_fail_in_mid_stream(rt: HostRuntime) -> Result<(), Fail> {
    assert!(rt; reads_once(), "of a reader");
    assert!(rt; writes_once(), "of a writer");
    Ok(())
}

/// Whether an error is printed so.
fn is_named(alloc: Global, error: DriveError, name: &str) -> Result<bool, AllocError> {
    let text = format!(in alloc; "{error}")?;
    Ok(text.as_str() == name)
}

/// Each error is displayed by its name, with the number of the line that it is of, if any.
#[test]
fn errors_are_named_as_in_the_complaints(rt: HostRuntime) -> Result<(), Fail> {
    let names = [
        (DriveError::ReadFault, "ReadFault"),
        (DriveError::WriteFault, "WriteFault"),
        (DriveError::BadLine(3), "BadLine 3"),
        (DriveError::LineTooLong(4), "LineTooLong 4"),
        (DriveError::OutOfTurns, "OutOfTurns"),
        (DriveError::NoMemory, "NoMemory"),
    ];
    for (error, name) in names {
        let is_named = is_named(rt.alloc(), error, name)?;
        assert!(rt; is_named, "of {name}");
    }
    Ok(())
}

/// The key of this text.
fn key(alloc: Global, text: &str) -> Result<KeyExpr<'static>, Fail> {
    match KeyExpr::from_string(String::from_str(alloc, text)?) {
        Ok(key) => Ok(key),
        Err(_) => Err(Fail::from("no key")),
    }
}

/// Puts the key of this text behind the others.
fn push_key(alloc: Global, keys: &mut Vec<KeyExpr<'static>>, text: &str) -> Result<(), Fail> {
    keys.push(key(alloc, text)?)?;
    Ok(())
}

/// The keys of these texts.
fn keys(alloc: Global, texts: &[&str]) -> Result<KeyList, Fail> {
    let mut keys = Vec::new(alloc);
    for text in texts {
        push_key(alloc, &mut keys, text)?;
    }
    Ok(KeyList::from_vec(keys))
}

/// Whether these words give these settings.
fn give(alloc: Global, words: &[String], settings: &Settings) -> Result<bool, AllocError> {
    match settings_of(alloc, words)? {
        Some(found) => Ok(found == *settings),
        None => Ok(false),
    }
}

/// Whether the words of a line give these settings.
fn are_given(alloc: Global, line: &str, settings: &Settings) -> Result<bool, AllocError> {
    let words = cut_words(alloc, line)?;
    give(alloc, words.as_slice(), settings)
}

/// Whether no words give the default settings.
fn none_give_defaults(alloc: Global) -> Result<bool, AllocError> {
    let settings = Settings::default();
    give(alloc, &[], &settings)
}

/// Whether the words of a line give the default settings.
fn are_defaults(alloc: Global, line: &str) -> Result<bool, AllocError> {
    let settings = Settings::default();
    are_given(alloc, line, &settings)
}

/// The word `drive` alone gives the default settings, and so do no words.
#[test]
fn settings_are_the_default_ones(rt: HostRuntime) -> Result<(), Fail> {
    assert!(rt; are_defaults(rt.alloc(), "drive")?);
    assert!(rt; none_give_defaults(rt.alloc())?);
    Ok(())
}

/// The greatest value of each setting that is a number is taken.
#[test]
fn settings_are_the_greatest(rt: HostRuntime) -> Result<(), Fail> {
    let line = "drive turns=18446744073709551615 key=65535 zid=ffffffffffffffffffffffffffffffff \
                line=1048576 query=4294967295 tag=18446744073709551615 entity=4294967294 \
                timeout=18446744073709551615";
    let settings = Settings {
        zid: u128::MAX,
        tag: u64::MAX,
        entity_start: 4294967294,
        key_start: 65535,
        query_start: u32::MAX,
        default_timeout: u64::MAX,
        line_max: 1048576,
        turns: u64::MAX,
        ..Settings::default()
    };
    assert!(rt; are_given(rt.alloc(), line, &settings)?);
    Ok(())
}

/// Settings with these aggregates.
fn aggregating(subscribers: KeyList, publishers: KeyList) -> Settings {
    Settings {
        zid: 171,
        aggregated_subscribers: subscribers,
        aggregated_publishers: publishers,
        ..Settings::default()
    }
}

/// Settings with aggregates in an order of their own.
fn ordered(alloc: Global) -> Result<Settings, Fail> {
    let subscribers = keys(alloc, &["a/**", "a", "a/**"])?;
    let publishers = keys(alloc, &["**"])?;
    Ok(aggregating(subscribers, publishers))
}

/// Aggregates keep their order and their doubles, and digits of an id may be in upper case.
#[test]
fn settings_keep_the_order_of_aggregates(rt: HostRuntime) -> Result<(), Fail> {
    let line = "drive aggsub=a/** zid=aB aggpub=** aggsub=a aggsub=a/**";
    let settings = ordered(rt.alloc())?;
    assert!(rt; are_given(rt.alloc(), line, &settings)?);
    Ok(())
}
