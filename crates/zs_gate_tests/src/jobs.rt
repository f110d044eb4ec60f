//! Jobs that write down that they ran.

use crate::words::{Word, hold, word};
use std::alloc::AllocGlobal;
use std::process::Abort;
use std::sync::atomic::Ordering;
use std::thread;
use zs_cancel::{Job, JobFailed};

// The word that jobs write their digits in, and the one that they wait for.
pub(crate) struct Words {
    pub(crate) digits: Word,
    released: Word,
}

impl Drop for Words {
    /// Drops both holds. It is written out, so that no proof takes the words apart where they go.
    fn drop(self) {
        let Words {
            digits: _,
            released: _,
        } = self;
    }
}

impl Words {
    // No digit is written, and no job is released.
    pub(crate) fn new<R: AllocGlobal + Abort>(rt: &R) -> Words {
        let digits = word(rt);
        let released = word(rt);
        Words { digits, released }
    }

    /// A second hold of both words, for a job.
    fn again<R: Abort>(&self, rt: &R) -> Words {
        let digits = hold(rt, &self.digits);
        let released = hold(rt, &self.released);
        Words { digits, released }
    }

    /// Lets the jobs go on: those that wait, and those that will.
    pub(crate) fn release(&self) {
        self.released.store(1, Ordering::SeqCst);
    }

    /// The digits as one decimal number, of which the last is the newest; 0 if there is none.
    pub(crate) fn written(&self) -> u64 {
        self.digits.load(Ordering::SeqCst)
    }

    // Writes a digit behind the others.
    fn write(&self, digit: u64) {
        let before = self.written();
        let digits = before.wrapping_mul(10).wrapping_add(digit);
        self.digits.store(digits, Ordering::SeqCst);
    }

    // Waits until the jobs are released.
    fn wait(&self) {
        for _ in 0..u64::MAX {
            if self.released.load(Ordering::SeqCst) == 1 {
                return;
            }
            thread::yield_now();
        }
    }
}

// A job that writes its digit, waits until it is released, and fails where it is to.
#[derive(Drop)]
pub(crate) struct Write {
    words: Words,
    digit: u64,
    failing: bool,
}

impl Write {
    /// A job of that digit, with its own hold of the words.
    pub(crate) fn new<R: Abort>(rt: &R, words: &Words, digit: u64, failing: bool) -> Write {
        Write {
            words: words.again(rt),
            digit,
            failing,
        }
    }
}

impl Job for Write {
    ghost use Rattle.std.specs.Prelude.{◌≡◌};

    ghost fails = { λ job failed. failed ≡ job.failing };

    /// Writes before it waits, so that a test sees that it runs.
    fn run(self) -> Result<(), JobFailed> {
        self.words.write(self.digit);
        self.words.wait();
        if self.failing { Err(JobFailed) } else { Ok(()) }
    }
}
