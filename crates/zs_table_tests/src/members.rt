//! A view of a group: a count doesn't fall below none, and keys that are no names change nothing.

use std::alloc::{AllocError, Global};
use zs_bytes::ZBytes;
use zs_keys::{KeyError, KeyExpr};
use zs_members::View;
use zs_sample::{
    CongestionControl, Encoding, Priority, Reliability, Sample, SampleFields, SampleKind,
};

static SAMPLES: [(SampleKind, &str); 7] = [
    (SampleKind::Put, "group/a1"),
    (SampleKind::Delete, "group/a1"),
    (SampleKind::Delete, "group/a1"),
    (SampleKind::Put, "group/a1"),
    (SampleKind::Put, "group/A"),
    (SampleKind::Put, "group/a/b"),
    (SampleKind::Put, "a1"),
];

/// A sample of that kind on that key, with no payload and all else by default.
fn sample(kind: SampleKind, key_expr: KeyExpr<'static>) -> Sample {
    Sample::from_fields(SampleFields {
        key_expr,
        payload: ZBytes::new(),
        kind,
        encoding: Encoding::default(),
        timestamp: None,
        express: false,
        priority: Priority::default(),
        congestion_control: CongestionControl::default(),
        reliability: Reliability::default(),
        source_info: None,
        attachment: None,
    })
}

/// Shows a view a sample of that kind; an error is a text that is no key, or want of memory.
fn take(view: &mut View, kind: SampleKind, text: &'static str) -> Result<(), KeyError> {
    let key = KeyExpr::new(text)?;
    let sample = sample(kind, key);
    Ok(view.take(&sample)?)
}

/// Shows a view all samples, up to the first that it has no memory for.
fn take_all(view: &mut View) -> Result<(), KeyError> {
    for (kind, text) in &SAMPLES {
        take(view, *kind, text)?;
    }
    Ok(())
}

/// Whether one name alone is there, so many times.
fn shows(view: &View, times: u64) -> bool {
    let mut names = view.iter();
    match names.next() {
        Some((name, count)) => name.as_str() == "a1" && *count == times && names.next().is_none(),
        None => false,
    }
}

/// Whether the name is raised in a copy alone.
fn copies(view: &View) -> Result<bool, AllocError> {
    let mut copy = view.try_clone()?;
    copy.raise("a1")?;
    Ok(shows(&copy, 2) && shows(view, 1))
}

/// Whether one name alone is there once after all samples, and a copy goes its own way.
fn names_are_right(alloc: Global) -> bool {
    let mut view = View::new(alloc);
    take_all(&mut view).is_ok() && copies(&view) == Ok(true)
}

/// A count stops at none where a name leaves too often, and keys that are no names aren't counted.
#[test]
fn names_are_counted(rt: HostRuntime) {
    assert!(rt; names_are_right(rt.alloc()));
}
