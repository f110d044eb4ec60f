//! The handler of sessions that have none.
use std::sync::Wait;
use zs_gate::{Drained, Inside};
use zs_handlers::{Handled, Handler};
use zs_turns::Item;

/// A handler that drops what it is given: for sessions whose turns are read and whose handlers are never called.
#[derive(Clone, Copy, Debug, PartialEq, Eq)]
pub struct NoHandler;

impl Handler<Item> for NoHandler {
    type Done = ();

    ghost use Rattle.std.specs.Prelude.{false};

    ghost evicts = { false };

    /// Drops the item, and so takes it: none is ever given up.
    fn on<R: Wait>(&self, _rt: &R, _inside: &Inside, item: Item) -> Handled<Item, ()> {
        drop(item);
        Handled::Taken(())
    }

    /// Does nothing at the end of the callback: it has kept no item.
    fn ended<R: Wait>(&self, _rt: &R, _drained: &Drained) {}
}
