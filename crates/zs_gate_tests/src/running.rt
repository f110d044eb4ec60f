//! Threads of a test, and how it hears that one has ended.

use crate::words::{Word, comes, hold, stays, word};
use std::alloc::AllocGlobal;
use std::process::Abort;
use std::sync::Wait;
use std::sync::atomic::Ordering;
use std::thread;
use std::thread::{JoinHandle, Threads};
use std::time::Clock;

// The runtime of a test that starts threads.
pub(crate) trait Host: Wait + Threads + Clock + AllocGlobal + Abort + Copy + Send + 'static {}

impl<R: Wait + Threads + Clock + AllocGlobal + Abort + Copy + Send + 'static> Host for R {}

// What a thread does. It answers whether it saw what it was to see.
pub(crate) trait Task: Drop + Send + 'static {
    /// Does it in the thread, with the runtime that the thread has.
    fn run<R: Wait>(self, rt: &R) -> bool;
}

// A thread, and the word that it stores 1 in at its end, or 2 where it saw something else.
pub(crate) struct Running {
    thread: JoinHandle<()>,
    end: Word,
}

impl Drop for Running {
    /// Drops the handle and the word. It is written out, so that no proof takes a thread apart where it goes.
    fn drop(self) {
        let Running { thread: _, end: _ } = self;
    }
}

impl Running {
    /// Starts a thread that does the task; there have to be memory and a thread for it.
    pub(crate) fn start<R: Host, T: Task>(rt: &R, task: T) -> Running {
        let end = word(rt);
        let told = hold(rt, &end);
        let theirs = *rt;
        let running = thread::spawn(rt, move || {
            let number = if task.run(&theirs) { 1 } else { 2 };
            told.store(number, Ordering::SeqCst);
        });
        let thread = running.expect(rt, "a thread");
        Running { thread, end }
    }

    // Whether the thread is still running after a while.
    pub(crate) fn waits<R: Clock>(&self, rt: &R) -> bool {
        stays(rt, &self.end, 0)
    }

    // Whether the thread ends before the turns are over, and saw what it was to see.
    pub(crate) fn ends<R: Threads + Clock>(self, rt: &R) -> bool {
        let Running { thread, end } = self;
        let came = comes(rt, &end, 1);
        if came {
            thread.join(rt);
        }
        came
    }
}
