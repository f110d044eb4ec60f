//! What a session gives out for an event.
ghost use Rattle.std.specs.Prelude.{◌≡◌, false, None, map, option_map};
ghost use Rattle.std.specs.Arc.{arc_value};
ghost use Rattle.atomic_table.specs.Seated.{TableId};
ghost use Rattle.zs_posts.specs.Calls.{call_seen, all_lents};
ghost use Rattle.zs_hands.specs.Answers.{AnswersAll, AreKept, AreOfRoom, ran_lents};

use std::marker::Model;
use std::sync::{Arc, Wait};
use zs_events::Turn;
use zs_handlers::Handler;
use zs_hands::{Hands, Ran};
use zs_shared::Shared;
use zs_turns::Item;

/// The turn of an event with the calls of handlers that are to be made of it, outside of any lock. It can't be let go: who
/// has one runs it.
pub struct Handing<H, D> {
    pub(crate) turn: Shared<Turn>,
    pub(crate) spare: Option<Shared<Turn>>,
    pub(crate) hands: Hands<H, Item, D>,
    pub(crate) back: Option<Arc<H>>,
}

impl<H, D> Model for Handing<H, D> {
    ghost use Rattle.std.specs.Prelude.{option_map};
    ghost use Rattle.std.specs.Arc.{arc_value};
    ghost use Rattle.zs_session_cell.specs.Journals.{HandingSeen};

    ghost Value = { HandingSeen H };

    ghost view = { λ h. record { turn = h.turn; spare = h.spare; calls = h.hands.calls.items; back = option_map arc_value h.back } };
}

impl<H: Drop, D: Drop> Handing<H, D> {
    /// The turn.
    pub fn turn(&self) -> &Turn
        ensures { result.now ≡ self.now.turn }
    {
        self.turn.get()
    }

    /// The handler, where one came with the event, the turn is refused, and this is the first asking.
    pub fn refused(&mut self) -> Option<Arc<H>>
        ensures back { option_map arc_value result ≡ self.old.back }
        ensures rest { self.new ≡ record self.old { back = None } }
    {
        self.back.take()
    }

    /// The turn, in the place where the session's journal has it, at the first asking: for whoever tells of it later.
    pub fn spare_turn(&mut self) -> Option<Shared<Turn>>
        ensures turn { result ≡ self.old.spare }
        ensures rest { self.new ≡ record self.old { spare = None } }
    {
        self.spare.take()
    }

    /// Makes each call inside of its gates, in the order of the turn. It takes no memory.
    pub fn run<R: Wait>(self, rt: &R) -> Ran<Item, D>
    where
        H: Handler<Item, Done = D>,
        ensures calls { AnswersAll H.gives self.calls result.ran.items }
        ensures kept { H.evicts ≡ false → AreKept result.ran.items }
        ensures room { (room : TableId) → AreOfRoom room (all_lents (map call_seen self.calls)) → AreOfRoom room (ran_lents result.ran.items) }
    {
        let Handing {
            turn,
            spare,
            hands,
            back,
        } = self;
        drop(turn);
        drop(spare);
        drop(back);
        hands.run(rt)
    }
}
