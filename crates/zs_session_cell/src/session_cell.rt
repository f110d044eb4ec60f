//! The cell of a session with its journal.
ghost use Rattle.std.specs.Prelude.{◌≡◌, ◌↔◌, [], None, IsTrue, IfSome, IfNone, ◌++◌, true, is_some, map, option_map, IfOk, IfErr, Some, OnOk, OnErr};
ghost use Rattle.std.specs.Arc.{arc_value};
ghost use Rattle.std.specs.Option.{option_to_list};
ghost use Rattle.zs_turns.specs.Gates.{takes_handler};
ghost use Rattle.zs_posts.specs.Settled.{all_given_back, held_at, taken_out};
ghost use Rattle.zs_hands.specs.Answers.{AreOfRoom, ran_lents, reports_of};
ghost use Rattle.zs_exchange.specs.Exchange.{IsNew};
ghost use Rattle.zs_exchange.specs.Ends.{IsIdle, GivesOut, AreOf};
ghost use Rattle.zs_core.specs.Settings.{is_valid};
ghost use Rattle.zs_exchange.specs.Handlers.{AreGates, NoneHeld};
ghost use Rattle.zs_session_cell.specs.Journals.{session_with, Advances, Follows, FlagsOf, IsOverdrawn, handler_back, closed_in, taken_in};
ghost use Rattle.zs_posts.specs.Calls.{call_seen, all_lents};

use crate::entry::Entry;
use crate::handing::Handing;
use crate::state::{CellState, Taken};
use std::alloc::{AllocError, Global};
use std::marker::Model;
use std::sync::Arc;
use zs_core::Settings;
use zs_events::{Event, Turn};
use zs_gate::NoPass;
use zs_hands::{Closing, Ending, Handed, Hands, Ran};
use zs_posts::{Key, Room};
use zs_shared::Shared;
use zs_turns::Item;
use zs_wire::Message;

/// A session: its core, the handlers with their gates, the messages that are to be sent, and the journal of all events with
/// their turns. Contracts see the settings, the journal, the posts and the messages.
pub struct SessionCell<H> {
    settings: Settings,
    cell: CellState<H>,
    journal: Vec<Entry>,
}

impl<H: Drop> Drop for SessionCell<H> {
    /// Lets go of what the session holds, the journal last.
    fn drop(self) {
        let SessionCell {
            settings,
            cell,
            journal,
        } = self;
        drop(settings);
        drop(cell);
        drop(journal);
    }
}

impl<H> Model for SessionCell<H> {
    ghost use Rattle.zs_session_cell.specs.Journals.{SessionSeen, IsKept};

    ghost Value = { SessionSeen H };

    ghost view = { λ s. record { settings = s.settings; journal = s.journal.items; exchange = s.cell.exchange } };

    ghost invariant = { λ s. IsKept s.cell.world s.settings s.journal.items s.cell.exchange.posts };
}

/// An event that wasn't taken, with the handler that came with it, and why.
#[derive(Drop)]
pub struct NotTaken<H> {
    pub why: NoPass,
    pub event: Shared<Event>,
    pub handler: Option<Arc<H>>,
}

// A turn, twice, with the calls that are to be made.
struct Advanced<H, D> {
    turn: Shared<Turn>,
    spare: Shared<Turn>,
    hands: Hands<H, Item, D>,
}

// The handler that goes back: that of a refused event.
fn back_of<H: Drop>(turn: &Turn, handler: Option<Arc<H>>) -> Option<Arc<H>>
    ensures { option_map arc_value result ≡ handler_back turn.now (option_map arc_value handler) }
{
    if turn.is_refused() {
        handler
    } else {
        drop(handler);
        None
    }
}

impl<H: Drop> SessionCell<H> {
    /// A new session, in which nothing is declared, with an empty journal. Messages are kept for `drain`, or not at all.
    ///
    /// # Errors
    ///
    /// Want of memory alone.
    pub fn new(
        alloc: Global,
        settings: &Settings,
        keeps: bool,
    ) -> Result<SessionCell<H>, AllocError>
        requires { IsTrue (is_valid settings.now) }
        ensures settings { IfOk result (λ new. new.settings ≡ settings.now) }
        ensures journal { IfOk result (λ new. new.journal ≡ []) }
        ensures exchange { IfOk result (λ new. IsNew settings.now.tag keeps new.exchange) }
        ensures gates { IfOk result (λ new. AreGates new.exchange.posts.rows) }
    {
        let copy = settings.try_clone(alloc)?;
        let cell = CellState::new(alloc, settings, keeps)?;
        Ok(SessionCell {
            settings: copy,
            cell,
            journal: Vec::new(alloc),
        })
    }

    /// Takes an event, with the handler of what it declares or asks. The turn is the core's, and stands in the journal with
    /// the event, also where it is refused. What takes memory comes first, so an event that isn't taken changes nothing.
    ///
    /// # Errors
    ///
    /// `Full` where the calls of the turn need more passes of some gate than it has left, else want of memory.
    pub fn take<D: Drop>(
        &mut self,
        event: Shared<Event>,
        handler: Option<Arc<H>>,
    ) -> Result<Handing<H, D>, NotTaken<H>>
        requires { is_some handler ≡ true → takes_handler event ≡ true }
        ensures ok { IfOk result (λ given. Advances event (option_map arc_value handler) self.old given.turn (map call_seen given.calls) self.new) }
        ensures refused { IfOk result (λ given. given.back ≡ handler_back given.turn (option_map arc_value handler)) }
        ensures spare { IfOk result (λ given. given.spare ≡ Some given.turn) }
        ensures lents { IfOk result (λ given. AreOfRoom self.old.exchange.posts.room (all_lents (map call_seen given.calls))) }
        ensures none { IfOk result (λ given. NoneHeld (option_map arc_value handler) self.old.exchange.posts → given.calls ≡ []) }
        ensures gates { OnOk result (NoneHeld (option_map arc_value handler) self.old.exchange.posts → AreGates self.new.exchange.posts.rows) }
        ensures room { self.new.exchange.posts.room ≡ self.old.exchange.posts.room }
        ensures back { IfErr result (λ refused. (refused.event ≡ event) × (refused.handler ≡ handler)) }
        ensures full { IfErr result (λ refused. refused.why ≡ NoPass.Full → IsOverdrawn event (option_map arc_value handler) self.old) }
        ensures held { IfErr result (λ refused. refused.why ≡ NoPass.Full → NoneHeld (option_map arc_value handler) self.old.exchange.posts → ⊥) }
        ensures err { OnErr result (self.new ≡ self.old) }
    {
        match self.advance(&event, &handler) {
            Ok(taken) => {
                let Advanced { turn, spare, hands } = taken;
                let back = back_of(turn.get(), handler);
                Ok(Handing {
                    turn,
                    spare: Some(spare),
                    hands,
                    back,
                })
            }
            Err(why) => Err(NotTaken {
                why,
                event,
                handler,
            }),
        }
    }

    // Takes an event into the core and the journal.
    fn advance<D: Drop>(
        &mut self,
        event: &Shared<Event>,
        handler: &Option<Arc<H>>,
    ) -> Result<Advanced<H, D>, NoPass>
        ensures ok { IfOk result (λ taken. Advances event.now (option_map arc_value handler.now) self.old taken.turn (map call_seen taken.hands.calls.items) self.new) }
        ensures spare { IfOk result (λ taken. taken.spare ≡ taken.turn) }
        ensures lents { IfOk result (λ taken. AreOfRoom self.old.exchange.posts.room (all_lents (map call_seen taken.hands.calls.items))) }
        ensures none { IfOk result (λ taken. NoneHeld (option_map arc_value handler.now) self.old.exchange.posts → taken.hands.calls.items ≡ []) }
        ensures gates { OnOk result (NoneHeld (option_map arc_value handler.now) self.old.exchange.posts → AreGates self.new.exchange.posts.rows) }
        ensures room { self.new.exchange.posts.room ≡ self.old.exchange.posts.room }
        ensures full { result ≡ Err NoPass.Full → IsOverdrawn event.now (option_map arc_value handler.now) self.old }
        ensures held { result ≡ Err NoPass.Full → NoneHeld (option_map arc_value handler.now) self.old.exchange.posts → ⊥ }
        ensures err { OnErr result (self.new ≡ self.old) }
    {
        let Ok(kept) = event.try_clone() else {
            return Err(NoPass::NoMemory);
        };
        match self.journal.reserve(1) {
            Ok(()) => {}
            Err(_) => return Err(NoPass::NoMemory),
        }
        let place = self.journal.as_slice().len() as u64;
        let taken = match self.cell.take(event.get(), handler, place) {
            Ok(taken) => taken,
            Err(why) => {
                drop(kept);
                return Err(why);
            }
        };
        let Taken {
            turn,
            copy,
            spare,
            hands,
        } = taken;
        self.journal.push_reserved(Entry {
            event: kept,
            turn: copy,
        });
        Ok(Advanced { turn, spare, hands })
    }

    /// The room of all passes: those that were lent here come back here.
    ///
    /// # Errors
    ///
    /// Want of memory alone.
    pub fn room(&self) -> Result<Room, AllocError>
        ensures { IfOk result (λ room. room ≡ self.now.exchange.posts.room) }
    {
        self.cell.room()
    }

    /// Whether the session was closed.
    pub fn is_closed(&self) -> bool
        ensures { result ≡ closed_in self.now }
    {
        self.cell.is_closed()
    }

    /// Whether that cancellation token was taken: a cancel named it, while the session was open.
    pub fn is_taken(&self, token: u32) -> bool
        ensures { result ≡ taken_in self.now token }
    {
        self.cell.is_taken(token)
    }

    /// All events that the session took, with their turns, the oldest first.
    pub fn journal(&self) -> &[Entry]
        ensures all { result.now ≡ self.now.journal }
        ensures turns { Follows self.now.settings [] self.now.journal }
    {
        self.journal.as_slice()
    }

    /// What is true of all gates that are held: each was ended exactly where a turn of the journal ends it, from the event on
    /// that opened it. So `ending` gives out what was ended and nothing else, and each once.
    pub fn tell_flags(&self)
        ensures { FlagsOf self.now.journal self.now.exchange.posts }
    {
        let _ = &self.settings;
    }

    /// Takes the message that was sent first of those that weren't taken yet.
    pub fn drain(&mut self) -> Option<Shared<Message>>
        ensures first { option_to_list result ++ self.new.exchange.outbox ≡ self.old.exchange.outbox }
        ensures none { IfNone result (self.old.exchange.outbox ≡ []) }
        ensures rest { self.new ≡ record self.old { exchange = record self.old.exchange { outbox = self.new.exchange.outbox } } }
    {
        self.cell.drain()
    }

    /// Takes the passes of calls that ran back, and tells what became of each item, in order.
    pub fn give_back<D: Drop>(&mut self, ran: Ran<Item, D>) -> Vec<Handed<Item, D>>
        requires { AreOfRoom self.old.exchange.posts.room (ran_lents ran.ran.items) }
        ensures reports { result.items ≡ reports_of ran.ran.items }
        ensures posts { self.new ≡ session_with (all_given_back (ran_lents ran.ran.items) self.old.exchange.posts) self.old }
        ensures room { self.new.exchange.posts.room ≡ self.old.exchange.posts.room }
    {
        self.cell.give_back(ran)
    }

    /// Gives out a gate that was ended and has no pass out, with its handler, if it is a handler's: the first to be so first.
    /// `None` where there is no such gate.
    pub fn ending(&mut self) -> Option<Ending<H>>
        ensures some { IfSome result (λ ending. GivesOut self.old.exchange.posts (option_map arc_value ending.handler) ending.drained self.new.exchange.posts) }
        ensures none { IfNone result (IsIdle self.old.exchange.posts × (self.new.exchange.posts ≡ self.old.exchange.posts)) }
        ensures rest { self.new ≡ session_with self.new.exchange.posts self.old }
        ensures room { self.new.exchange.posts.room ≡ self.old.exchange.posts.room }
    {
        self.cell.ending()
    }

    /// Marks the gate of a key and gives it out, with its handler, if it is a handler's, whether or not passes of it are out.
    pub fn drain_of(&mut self, key: Key) -> Option<Closing<H>>
        ensures some { IfSome result (λ closing. AreOf (held_at key self.old.exchange.posts) (option_map arc_value closing.handler) closing.draining.gate) }
        ensures none { (result ≡ None) ↔ (held_at key self.old.exchange.posts ≡ None) }
        ensures posts { self.new ≡ session_with (taken_out key self.old.exchange.posts) self.old }
    {
        self.cell.drain_of(key)
    }

    /// Whether the gate of a key is held: from the event that opens it until it is given out.
    pub fn holds(&self, key: Key) -> bool
        ensures { result ≡ is_some (held_at key self.now.exchange.posts) }
    {
        self.cell.holds(key)
    }
}
