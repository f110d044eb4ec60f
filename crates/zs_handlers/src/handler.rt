//! What takes the items of a callback.
ghost use Rattle.std.specs.Prelude.{◌≡◌, Bool, true, false, Option, ⊤};
ghost use Rattle.zs_handlers.specs.Handled.{IsTaken, given_up};

use std::sync::Wait;
use zs_gate::{Drained, Inside};

/// What became of an item that a handler was given, with what the handler tells of the call.
#[derive(Debug, Drop)]
pub enum Handled<T, D> {
    /// The handler has the item.
    Taken(D),
    /// The handler gives this item up: the one that it was given, or an older one in its place.
    Evicted(T, D),
}

/// What the senders of the channels tell of a call: that it was made. Only they make one.
#[derive(Clone, Copy, Debug, PartialEq, Eq)]
pub struct Took(());

impl Took {
    // The word of a sender of this crate that it was called.
    pub(crate) fn new() -> Took {
        Took(())
    }
}

/// Takes the items of a callback, and hears when the callback has ended.
///
/// Code over any handler can't make a `Done`, so each that it holds came from a call of a handler.
pub trait Handler<T> {
    /// What a call tells.
    type Done: Drop;

    // Whether items may be given up. A handler that says no takes each item.
    ghost evicts: { Bool } = { true };

    // What a call with an item may give up, as told by the handler, the item and what comes back: `None` where nothing does.
    // A handler that leaves this out may give up whatever it likes.
    //
    // Code over any handler has no other proof of this than a call: so whatever shows it was told by a call of that handler
    // with that item, and tells what that call gave up.
    ghost gives: { Self → T → Option T → Type 0 } = { λ _ _ _. ⊤ };

    /// Takes an item. The caller is inside of the callback's gate, so the callback ends only after this call. It runs on the
    /// thread of whoever handed the item over, and calls of several threads may overlap.
    fn on<R: Wait>(&self, rt: &R, inside: &Inside, item: T) -> Handled<T, Self::Done>
        ensures kept { evicts ≡ false → IsTaken result }
        ensures gives { gives self.now item (given_up result) };

    /// Hears that the callback has ended: no call of `on` is under way any more, and none will be.
    fn ended<R: Wait>(&self, rt: &R, drained: &Drained) -> Self::Done;
}
