//! Calls on keys that take memory, keys that a careless search would try for ever, and a sink over memory.

use std::alloc::Global;
use zs_keys::{KeyError, KeyExpr, MemorySink, Sink};

/// A text that repeats another one, between a start and an end.
struct Run {
    start: &'static str,
    text: &'static str,
    times: u64,
    end: &'static str,
}

/// The key of such a text; an error is a text that is no key, or want of memory.
fn repeated(alloc: Global, run: &Run) -> Result<KeyExpr<'static>, KeyError> {
    let mut whole = String::from_str(alloc, run.start)?;
    for _ in 0..run.times {
        whole.push_str(run.text)?;
    }
    whole.push_str(run.end)?;
    KeyExpr::from_string(whole)
}

const RUNS: Run = Run {
    start: "",
    text: "**/a/",
    times: 5000,
    end: "**",
};

const OTHERS: Run = Run {
    start: "",
    text: "**/a/",
    times: 5000,
    end: "b",
};

const PLAIN: Run = Run {
    start: "",
    text: "a/",
    times: 10000,
    end: "c",
};

const DEEP: Run = Run {
    start: "",
    text: "$*a",
    times: 2000,
    end: "b",
};

const FLAT: Run = Run {
    start: "",
    text: "a",
    times: 4000,
    end: "",
};

const BEHIND_A_RUN: Run = Run {
    start: "**/",
    text: "a/",
    times: 100,
    end: "b/**",
};

/// Two long keys, and whether they have a key in common.
static PAIRS: [(Run, Run, bool); 5] = [
    (RUNS, OTHERS, true),
    (RUNS, PLAIN, true),
    (OTHERS, PLAIN, false),
    (DEEP, FLAT, false),
    (BEHIND_A_RUN, PLAIN, false),
];

/// Whether two long keys have a key in common.
fn meet(alloc: Global, left: &Run, right: &Run) -> Result<bool, KeyError> {
    let left = repeated(alloc, left)?;
    let right = repeated(alloc, right)?;
    Ok(left.meets(&right))
}

/// Long keys of wild chunks are told to meet or not, where a careless search would go on for ever.
#[test]
fn hostile_keys(rt: HostRuntime) {
    for (left, right, answer) in &PAIRS {
        assert!(rt; meet(rt.alloc(), left, right) == Ok(*answer));
    }
}

/// Whether a key gives the text `a/b` up.
fn gives_its_text(alloc: Global, key: KeyExpr<'static>) -> bool {
    match key.into_string(alloc) {
        Ok(text) => text.as_str() == "a/b",
        Err(_) => false,
    }
}

/// Whether a text that two keys share is given by the one, and then by the other.
fn share_a_text(alloc: Global) -> Result<bool, KeyError> {
    let owned = KeyExpr::new("a/b")?.into_owned(alloc)?;
    let copy = owned.with_suffix(alloc, "")?;
    let first = gives_its_text(alloc, copy);
    let second = gives_its_text(alloc, owned);
    Ok(first && second)
}

/// A key gives its text up whether another one shares it or not.
#[test]
fn shared_texts(rt: HostRuntime) {
    assert!(rt; share_a_text(rt.alloc()) == Ok(true));
}

static ERRORS: [(KeyError, &str); 3] = [
    (KeyError::BadKeyExpr, "not a canonical key expression"),
    (
        KeyError::ConcatStars,
        "a text that begins with a star cannot follow one that ends with a star",
    ),
    (KeyError::NoMemory, "out of memory"),
];

/// Whether an error is printed as that text.
fn is_printed_as(alloc: Global, error: KeyError, text: &str) -> bool {
    match format!(in alloc; "{error}") {
        Ok(printed) => printed.as_str() == text,
        Err(_) => false,
    }
}

/// Each error is printed as its text.
#[test]
fn error_texts(rt: HostRuntime) {
    for (error, text) in &ERRORS {
        assert!(rt; is_printed_as(rt.alloc(), *error, text), "{text}");
    }
}

/// What is made of a key and a text.
enum Making {
    Join,
    Concat,
    WithSuffix,
    Div,
}

/// A key, a text, and the text of what is made of them, or why it is refused.
struct Made {
    key: &'static str,
    making: Making,
    with: &'static str,
    text: Result<&'static str, KeyError>,
}

/// What Zenoh's `/` makes of a key and a text, which has to be a key by itself.
fn divide(alloc: Global, key: &KeyExpr<'_>, with: &str) -> Result<KeyExpr<'static>, KeyError> {
    let other = KeyExpr::new(with)?;
    key.div(alloc, &other)
}

/// What is made of a row's key and its text, or why it is refused.
fn make(alloc: Global, row: &Made) -> Result<KeyExpr<'static>, KeyError> {
    let key = KeyExpr::new(row.key)?;
    match row.making {
        Making::Join => key.join(alloc, row.with),
        Making::Concat => key.concat(alloc, row.with),
        Making::WithSuffix => key.with_suffix(alloc, row.with),
        Making::Div => divide(alloc, &key, row.with),
    }
}

/// Whether a row is made as it says, or refused for its reason.
fn is_made(alloc: Global, row: &Made) -> bool {
    match make(alloc, row) {
        Ok(made) => row.text == Ok(made.as_str()),
        Err(error) => row.text == Err(error),
    }
}

static MADE: [Made; 7] = [
    Made {
        key: "a/**",
        making: Making::Join,
        with: "*",
        text: Ok("a/*/**"),
    },
    Made {
        key: "a/**",
        making: Making::Join,
        with: "",
        text: Err(KeyError::BadKeyExpr),
    },
    Made {
        key: "a/**",
        making: Making::Concat,
        with: "*",
        text: Err(KeyError::ConcatStars),
    },
    Made {
        key: "a/**",
        making: Making::Concat,
        with: "/b",
        text: Ok("a/**/b"),
    },
    Made {
        key: "a/**",
        making: Making::WithSuffix,
        with: "/*b",
        text: Err(KeyError::BadKeyExpr),
    },
    Made {
        key: "a/**",
        making: Making::WithSuffix,
        with: "/b",
        text: Ok("a/**/b"),
    },
    Made {
        key: "a/b",
        making: Making::Div,
        with: "*",
        text: Ok("a/b/*"),
    },
];

/// Keys that are joined, appended to and divided become what the rows say, or are refused for that reason.
#[test]
fn made_keys(rt: HostRuntime) {
    for row in &MADE {
        assert!(rt; is_made(rt.alloc(), row), "{} with {}", row.key, row.with);
    }
}

/// Whether a sink of pieces of two bytes takes two of three.
fn takes(alloc: Global) -> bool {
    let mut sink = MemorySink::new(alloc, 2, Vec::new(alloc), Vec::new(alloc));
    sink.write(&[1, 2, 3]) == Ok(2) && sink.short() == 0
}

/// A sink over memory takes one piece of a longer write, and never was short of memory.
#[test]
fn sinks(rt: HostRuntime) {
    assert!(rt; takes(rt.alloc()));
}
