//! A cell that holds no handler: whoever gives it an event reads the turn, and no call is to be made.

ghost use Rattle.std.specs.Prelude.{◌≡◌, []};
ghost use Rattle.zs_exchange.specs.Ends.{IsIdle};
ghost use Rattle.zs_exchange.specs.Handlers.{AreBare};

use crate::no_handler::NoHandler;
use crate::state::{CellState, Taken};
use zs_events::Turn;
use zs_shared::Shared;

/// The turn alone, where no call is to be made.
pub fn turn_alone(taken: Taken<NoHandler, ()>) -> Shared<Turn>
    requires { taken.hands.calls.items ≡ [] }
    ensures { result ≡ taken.turn }
{
    let Taken {
        turn,
        copy,
        spare,
        hands,
    } = taken;
    hands.let_go();
    drop(copy);
    drop(spare);
    turn
}

/// Lets the gates go that were ended and have no pass out. None has a handler to be told.
pub fn let_ended_go(cell: &mut CellState<NoHandler>)
    requires { AreBare cell.old.exchange.posts.ready }
    ensures world { cell.new.world ≡ cell.old.world }
    ensures keeps { cell.new.exchange.keeps ≡ cell.old.exchange.keeps }
    ensures outbox { cell.new.exchange.outbox ≡ cell.old.exchange.outbox }
    ensures rows { cell.new.exchange.posts.rows ≡ cell.old.exchange.posts.rows }
    ensures bare { AreBare cell.new.exchange.posts.ready }
    ensures idle { IsIdle cell.new.exchange.posts }
{
    'endings: while let Some(ending) = cell.ending() {
        ending.let_go();
    }
}
