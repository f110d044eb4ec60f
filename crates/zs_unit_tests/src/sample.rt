//! Encodings and selectors by worked texts, defaults, and copies with memory at hand.

use std::alloc::{AllocError, Global};
use zs_keys::{KeyError, KeyExpr};
use zs_sample::{
    CongestionControl, ConsolidationMode, Encoding, EntityGlobalId, Locality, Priority,
    QueryConsolidation, Reliability, Reply, ReplyError, ReplyKeyExpr, Sample, SampleFields,
    SampleKind, Selector, Text, ZBytes,
};

/// An encoding with a name of its own, or made of texts.
enum Known {
    Bytes,
    String,
    Plain,
    Json,
    Default,
    Of(&'static str),
    OfText,
    /// A name and a schema.
    WithSchema(&'static str, &'static str),
}

static ENCODINGS: [(Known, &str); 13] = [
    (Known::Bytes, "zenoh/bytes"),
    (Known::String, "zenoh/string"),
    (Known::Plain, "text/plain"),
    (Known::Json, "application/json"),
    (Known::Default, "zenoh/bytes"),
    (Known::Of(""), "zenoh/bytes"),
    (Known::OfText, "a"),
    (
        Known::WithSchema("custom/format;v1.0", "v2.0"),
        "custom/format;v2.0",
    ),
    (Known::WithSchema("a;b;c", "d"), "a;d"),
    (Known::WithSchema("ä/ö", "ü"), "ä/ö;ü"),
    (Known::WithSchema("text/plain", ""), "text/plain;"),
    (Known::WithSchema("", "v1"), "zenoh/bytes;v1"),
    (Known::WithSchema(";", "a;b"), ";a;b"),
];

/// The encoding that is meant, in memory of its own where it is made of texts.
fn encoding(alloc: Global, known: &Known) -> Result<Encoding, AllocError> {
    match known {
        Known::Bytes => Ok(Encoding::ZENOH_BYTES),
        Known::String => Ok(Encoding::ZENOH_STRING),
        Known::Plain => Ok(Encoding::TEXT_PLAIN),
        Known::Json => Ok(Encoding::APPLICATION_JSON),
        Known::Default => Ok(Encoding::default()),
        Known::Of(name) => Encoding::of(alloc, name),
        Known::OfText => Ok(Encoding::of_text(Text::of(alloc, "a")?)),
        Known::WithSchema(name, schema) => Encoding::of(alloc, name)?.with_schema(alloc, schema),
    }
}

/// Whether an encoding has that text.
fn has_text(alloc: Global, encoding: &Encoding, want: &str) -> bool {
    match encoding.to_text(alloc) {
        Ok(text) => text.as_str() == want,
        Err(_) => false,
    }
}

/// Whether the copy of an encoding has that text.
fn is(alloc: Global, known: &Known, want: &str) -> Result<bool, AllocError> {
    let encoding = encoding(alloc, known)?;
    let copy = encoding.try_clone(alloc)?;
    Ok(has_text(alloc, &copy, want))
}

/// The copy of each encoding has the worked text; a schema takes the place of the one before it.
#[test]
fn encodings(rt: HostRuntime) {
    for (known, want) in &ENCODINGS {
        assert!(rt; is(rt.alloc(), known, want) == Ok(true), "{want}");
    }
}

/// Whether priorities are numbered from 1, the highest, to 7, the lowest, as Zenoh does.
fn are_bounds() -> bool {
    Priority::DEFAULT == Priority::default()
        && Priority::MAX == Priority::RealTime
        && Priority::MIN == Priority::Background
        && Priority::MAX.number() == 1
        && Priority::MIN.number() == 7
        && Priority::NUM == 7
}

/// Whether defaults are those of the Zenoh API.
fn are_defaults() -> bool {
    Reliability::default() == Reliability::Reliable
        && Locality::default() == Locality::Any
        && ReplyKeyExpr::default() == ReplyKeyExpr::MatchingQuery
        && QueryConsolidation::DEFAULT == QueryConsolidation::AUTO
        && QueryConsolidation::default().mode() == ConsolidationMode::Auto
}

/// Priorities have the bounds of Zenoh, and small types its defaults.
#[test]
fn small_types(rt: HostRuntime) {
    assert!(rt; are_bounds());
    assert!(rt; are_defaults());
}

/// A text, the key and the parameters that it has, and the text of both.
static SELECTORS: [(&str, &str, &str, &str); 4] = [
    ("a/b", "a/b", "", "a/b"),
    ("a/b?", "a/b", "", "a/b"),
    ("a/b?x=1;", "a/b", "x=1", "a/b?x=1"),
    ("a/b?x?y", "a/b", "x?y", "a/b?x?y"),
];

/// Texts that select nothing.
static REFUSED: [&str; 4] = ["", "?x", "a//b?x", "/a"];

/// Whether a selector has that key and those parameters.
fn has_parts(selector: &Selector<'_>, key: &str, parameters: &str) -> bool {
    selector.key_expr().as_str() == key && selector.parameters().as_str() == parameters
}

/// Whether a selector is printed as that text.
fn is_printed_as(alloc: Global, selector: &Selector<'_>, want: &str) -> bool {
    match format!(in alloc; "{selector}") {
        Ok(printed) => printed.as_str() == want,
        Err(_) => false,
    }
}

/// A text as a selector in memory of its own.
fn selected(alloc: Global, text: &str) -> Result<Selector<'static>, KeyError> {
    let selector = Selector::new(text)?;
    Ok(selector.into_owned(alloc)?)
}

/// Whether a text becomes a selector of the row's key and parameters, and is printed as the row says.
fn selects(alloc: Global, row: &(&str, &str, &str, &str)) -> bool {
    let (text, key, parameters, want) = row;
    match selected(alloc, text) {
        Ok(selector) => {
            has_parts(&selector, key, parameters) && is_printed_as(alloc, &selector, want)
        }
        Err(_) => false,
    }
}

/// Whether each text that selects nothing is refused.
fn are_refused() -> bool {
    for text in &REFUSED {
        if Selector::new(text).is_ok() {
            return false;
        }
    }
    true
}

/// Worked texts become selectors, and those that have no key are refused.
#[test]
fn selectors(rt: HostRuntime) {
    for row in &SELECTORS {
        assert!(rt; selects(rt.alloc(), row), "{}", row.0);
    }
    assert!(rt; are_refused());
}

const REPLIER: EntityGlobalId = EntityGlobalId { zid: 1, eid: 2 };

/// A put on `k` with qualities other than the default ones.
fn sample() -> Result<Sample, KeyError> {
    let key_expr = KeyExpr::new("k")?;
    Ok(Sample::from_fields(SampleFields {
        key_expr,
        payload: ZBytes::new(),
        kind: SampleKind::Put,
        encoding: Encoding::TEXT_PLAIN,
        timestamp: None,
        express: true,
        priority: Priority::RealTime,
        congestion_control: CongestionControl::Block,
        reliability: Reliability::BestEffort,
        source_info: None,
        attachment: Some(ZBytes::new()),
    }))
}

/// Whether a reply can be copied while memory is there.
fn is_copied(alloc: Global, reply: Reply) -> bool {
    match reply.try_clone(alloc) {
        Ok(copy) => {
            drop(copy);
            true
        }
        Err(_) => false,
    }
}

/// Whether the reply with a sample, and one with an error, can be copied.
fn are_copied(alloc: Global) -> Result<bool, KeyError> {
    let sample = sample()?;
    let first = is_copied(alloc, Reply::of(Ok(sample), Some(REPLIER)));
    let second = is_copied(alloc, Reply::of(Err(ReplyError::empty()), None));
    Ok(first && second)
}

/// Whether an empty error tells the length of its payload and its encoding.
fn is_printed(alloc: Global) -> bool {
    let error = ReplyError::empty();
    match format!(in alloc; "{error}") {
        Ok(printed) => {
            printed.as_str()
                == "query returned an error with a 0-byte payload and encoding zenoh/bytes"
        }
        Err(_) => false,
    }
}

/// Whether an error that is put in the place of a reply's own comes out.
fn is_replaced() -> bool {
    let mut reply = Reply::of(Err(ReplyError::empty()), None);
    if let Err(inside) = reply.result_mut() {
        *inside = ReplyError::of(ZBytes::new(), Encoding::TEXT_PLAIN);
    }
    match reply.into_result() {
        Ok(sample) => {
            drop(sample);
            false
        }
        Err(error) => *error.encoding() == Encoding::TEXT_PLAIN,
    }
}

/// Replies can be copied, and their errors printed and replaced.
#[test]
fn replies(rt: HostRuntime) {
    assert!(rt; are_copied(rt.alloc()) == Ok(true));
    assert!(rt; is_printed(rt.alloc()));
    assert!(rt; is_replaced());
}
