//! A handler that holds its call.
use std::alloc::{AllocError, Global};
use std::sync::atomic::{AtomicU64, Ordering};
use std::sync::{Arc, Wait};
use std::thread;
use zs_cell::{Drained, Item};
use zs_gate::Inside;
use zs_handlers::{Handled, Handler};

/// How often a call yields before it gives up.
const TURNS: u64 = 1 << 24;

/// How often a thread yields before it releases a handler.
const TURNS_HELD: u64 = 100_000;

/// A word that threads share.
pub(crate) type Word = Arc<AtomicU64, Global>;

/// A word that is 0.
pub(crate) fn word(alloc: Global) -> Result<Word, AllocError> {
    let word = Arc::new(alloc, AtomicU64::new(0))?;
    Ok(word)
}

/// Whether a word becomes 1 before the turns are over.
pub(crate) fn comes(word: &AtomicU64) -> bool {
    for _ in 0..TURNS {
        if word.load(Ordering::SeqCst) == 1 {
            return true;
        }
        thread::yield_now();
    }
    false
}

/// A handler whose call is held until it is released. It tells that the call has begun, and that it has ended.
#[derive(Drop)]
pub(crate) struct Holding {
    pub(crate) entered: Word,
    pub(crate) released: Word,
    pub(crate) left: Word,
}

impl Holding {
    /// A handler that wasn't called, and isn't released.
    pub(crate) fn new(alloc: Global) -> Result<Holding, AllocError> {
        let entered = word(alloc)?;
        let released = word(alloc)?;
        let left = word(alloc)?;
        Ok(Holding {
            entered,
            released,
            left,
        })
    }

    /// Lets the call go on.
    pub(crate) fn release(&self) {
        self.released.store(1, Ordering::SeqCst);
    }
}

/// A handler that holds its call, and its words for whoever releases it.
pub(crate) fn new_holding(alloc: Global) -> Result<(Arc<Holding>, Arc<Holding>), AllocError> {
    let holding = Holding::new(alloc)?;
    match Arc::new(alloc, holding) {
        Ok(holding) => {
            let kept = Arc::try_clone(&holding)?;
            Ok((holding, kept))
        }
        Err(_) => Err(AllocError),
    }
}

/// Releases a handler some time after it was called: whether it was called.
pub(crate) fn releases_late(words: &Holding) -> bool {
    let called = comes(&words.entered);
    for _ in 0..TURNS_HELD {
        thread::yield_now();
    }
    words.release();
    called
}

/// Whether a handler's call has ended.
pub(crate) fn has_left(words: &Holding) -> bool {
    words.left.load(Ordering::SeqCst) == 1
}

impl Handler<Item> for Holding {
    type Done = ();

    ghost use Rattle.std.specs.Prelude.{false};

    ghost evicts = { false };

    /// Tells that the call has begun, and holds it until the release. A call that gives up doesn't tell its end.
    fn on<R: Wait>(&self, _rt: &R, _inside: &Inside, item: Item) -> Handled<Item, ()> {
        drop(item);
        self.entered.store(1, Ordering::SeqCst);
        if comes(&self.released) {
            self.left.store(1, Ordering::SeqCst);
        }
        Handled::Taken(())
    }

    /// Does nothing: the tests look at the words alone.
    fn ended<R: Wait>(&self, _rt: &R, _drained: &Drained) {}
}
