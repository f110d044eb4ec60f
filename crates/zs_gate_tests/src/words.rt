//! Words that a test and its threads share, and how long a test waits for one.

use std::alloc::{AllocGlobal, Global};
use std::process::Abort;
use std::sync::Arc;
use std::sync::atomic::{AtomicU64, Ordering};
use std::thread;
use std::time::{Clock, Duration};

// A test gives up after as many turns of a millisecond.
const TURNS: u32 = 10_000;

pub(crate) type Word = Arc<AtomicU64, Global>;

// A word that is 0.
pub(crate) fn word<R: AllocGlobal + Abort>(rt: &R) -> Word {
    Arc::new(rt.alloc(), AtomicU64::new(0)).expect(rt, "a word")
}

// A second hold of a word, for another thread.
pub(crate) fn hold<R: Abort>(rt: &R, word: &Word) -> Word {
    Arc::try_clone(word).expect(rt, "a hold of a word")
}

// Whether the word becomes the number before the turns are over.
pub(crate) fn comes<R: Clock>(rt: &R, word: &AtomicU64, number: u64) -> bool {
    for _ in 0..TURNS {
        if word.load(Ordering::SeqCst) == number {
            return true;
        }
        thread::sleep(rt, Duration::from_millis(1));
    }
    false
}

// Whether the word is still the number after a while.
pub(crate) fn stays<R: Clock>(rt: &R, word: &AtomicU64, number: u64) -> bool {
    thread::sleep(rt, Duration::from_millis(20));
    word.load(Ordering::SeqCst) == number
}
