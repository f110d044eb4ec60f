//! What is to be done, outside of a session's lock, of an event that the session took.
ghost use Rattle.std.specs.Prelude.{◌≡◌, ℕ, [], None, false, is_some, map, option_map};
ghost use Rattle.std.specs.Arc.{arc_value};
ghost use Rattle.atomic_table.specs.Seated.{TableId};
ghost use Rattle.zs_posts.specs.Calls.{call_seen, all_lents};
ghost use Rattle.zs_hands.specs.Answers.{AreOfRoom};
ghost use Rattle.zs_cell.specs.Works.{returned};

use crate::reports::Reports;
use std::marker::Model;
use std::sync::{Arc, Wait};
use zs_books::Books;
use zs_events::Answer;
use zs_handlers::Handler;
use zs_hands::{Closing, Ran};
use zs_held::Held;
use zs_session_cell::Handing;
use zs_turns::Item;

/// The calls of an event that was taken, with what it was answered, the handler that goes back, and a gate that is waited
/// for. It can't be let go: who has one makes the calls.
pub(crate) struct Work<H, D> {
    handing: Handing<H, D>,
    closing: Option<Closing<H>>,
}

impl<H, D> Model for Work<H, D> {
    ghost use Rattle.std.specs.Prelude.{map, is_some, option_map};
    ghost use Rattle.zs_posts.specs.Calls.{call_seen, all_lents};
    ghost use Rattle.zs_cell.specs.Works.{WorkSeen};

    ghost Value = { WorkSeen H };

    ghost view = { λ w. record { answer = w.handing.turn.answer; back = w.handing.back; lents = all_lents (map call_seen w.handing.calls); waits = is_some w.closing; gate = option_map (λ c. c.draining.gate) w.closing } };
}

/// Calls that were made, with the passes that go back. Contracts see the passes, and what became of each item.
pub(crate) struct Worked<D> {
    ran: Ran<Item, D>,
}

impl<D> Model for Worked<D> {
    ghost use Rattle.zs_hands.specs.Answers.{ran_lents, reports_of};
    ghost use Rattle.zs_cell.specs.Works.{WorkedSeen};

    ghost Value = { WorkedSeen D };

    ghost view = { λ w. record { lents = ran_lents w.ran.ran.items; reports = reports_of w.ran.ran.items } };
}

impl<H: Drop, D: Drop> Work<H, D> {
    /// The calls of an event that was taken, and the gate that is waited for behind them, if there is one.
    #[tactic(none)]
    pub(crate) fn of(handing: Handing<H, D>, closing: Option<Closing<H>>) -> Work<H, D>
        ensures { result ≡ record { answer = handing.turn.answer; back = handing.back; lents = all_lents (map call_seen handing.calls); waits = is_some closing; gate = option_map (λ c. c.draining.gate) closing } }
    {
        Work { handing, closing }
    }

    /// What the event was answered; its calls are still to be made.
    #[tactic(none)]
    pub(crate) fn answer(&self) -> Answer
        ensures { result ≡ self.now.answer }
    {
        self.handing.turn().answer
    }

    // The handler that goes back, at the first asking.
    #[tactic(none)]
    pub(crate) fn refused(&mut self) -> Option<Arc<H>>
        ensures back { option_map arc_value result ≡ self.old.back }
        ensures rest { self.new ≡ record self.old { back = None } }
    {
        self.handing.refused()
    }

    // Makes the calls: the gate that is waited for comes back.
    #[tactic(none)]
    pub(crate) fn run<R: Wait>(self, rt: &R) -> (Worked<D>, Option<Closing<H>>)
    where
        H: Handler<Item, Done = D>,
        ensures room { (room : TableId) → AreOfRoom room self.lents → AreOfRoom room result.0.lents }
        ensures closing { is_some result.1 ≡ self.waits }
        ensures gate { option_map (λ c. c.draining.gate) result.1 ≡ self.gate }
        ensures kept { H.evicts ≡ false → (tag : ℕ) → returned tag false result.0.reports ≡ [] }
    {
        let Work { handing, closing } = self;
        let ran = handing.run(rt);
        (Worked { ran }, closing)
    }
}

impl<D: Drop> Worked<D> {
    // Gives the passes back: what became of each item.
    #[tactic(none)]
    pub(crate) fn give_back<H: Drop, B: Books>(self, held: &mut Held<H, B>) -> Reports<D>
        requires { AreOfRoom held.old.session.exchange.posts.room self.lents }
        ensures reports { result ≡ self.reports }
        ensures room { held.new.session.exchange.posts.room ≡ held.old.session.exchange.posts.room }
    {
        let Worked { ran } = self;
        let reports = held.give_back(ran);
        Reports::of(reports)
    }
}
